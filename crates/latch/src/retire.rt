// Retirement of MEM/WB.
ghost use Rattle.std.specs.Prelude.{◌≡◌};
ghost use Rattle.latch.specs.Retire.{halts, is_faulty, retire_cpuid, retire_reg, retired_mode, retired_pc};
ghost use Rattle.latch.specs.Retire.{retired_regs};

use crate::MemWb;
use isa::Mode;
use isa::registers::{put_reg, write_cpuid};

// A write puts R0 back to 0.
#[tactic(auto, unfolding(crate::specs::Retire::retire_reg))]
fn retire_reg(dest: Option<u8>, v: u32, reg: &mut [u32; 32])
    ensures { reg.new ≡ retire_reg dest v reg.old }
{
    let Some(k) = dest else {
        return;
    };
    put_reg(k, v, reg);
    reg[0] = 0;
}

// CPUID's words, and R0 back to 0; `on` and `features` as in isa's `write_cpuid`.
#[tactic(auto, unfolding(crate::specs::Retire::retire_cpuid, isa::specs::Registers::write_cpuid))]
fn retire_cpuid(on: bool, features: u32, reg: &mut [u32; 32])
    ensures { reg.new ≡ retire_cpuid on features reg.old }
{
    write_cpuid(on, features, reg);
    if on {
        reg[0] = 0;
    }
}

impl MemWb {
    // A valid HALT.
    #[tactic(auto, unfolding(crate::specs::Retire::halts))]
    pub fn halts(self) -> bool
        ensures { result ≡ halts self }
    {
        self.valid & self.halt
    }

    // A valid exception, MTSR or IRET, which never retires.
    #[tactic(auto, unfolding(crate::specs::Retire::is_faulty))]
    pub fn is_faulty(self) -> bool
        ensures { result ≡ is_faulty self }
    {
        self.valid & (self.exception.is_some() | self.mtsr.is_some() | self.iret)
    }

    // The retire address after it.
    #[tactic(auto, unfolding(crate::specs::Retire::retired_pc))]
    pub fn retired_pc(self, pc: u32) -> u32
        ensures { result ≡ retired_pc self pc }
    {
        if self.valid {
            if self.branch_taken {
                return self.branch_target;
            }
            return self.mode.fall(self.pc);
        }
        pc
    }

    // A mode after it.
    #[tactic(auto, unfolding(crate::specs::Retire::retired_mode))]
    pub fn retired_mode(self, mode: Mode) -> Mode
        ensures { result ≡ retired_mode self mode }
    {
        if self.valid {
            return self.branch_new_mode.unwrap_or(mode);
        }
        mode
    }

    // The registers after it.
    #[tactic(auto, unfolding(crate::specs::Retire::retired_regs))]
    pub fn write_back(self, features: u32, reg: &mut [u32; 32])
        ensures { reg.new ≡ retired_regs self features reg.old }
    {
        if self.valid {
            retire_cpuid(self.cpuid, features, reg);
            if self.writeback {
                retire_reg(self.dest, self.value, reg);
            }
        }
    }
}
