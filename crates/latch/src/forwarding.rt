// Forwarding out of one latch, over the value of an older place.
ghost use Rattle.std.specs.Prelude.{◌≡◌};
ghost use Rattle.latch.specs.Forwarding.{cpuid_word, ex_mem_holds, forward_from, from_ex_mem, from_mem_wb};
ghost use Rattle.latch.specs.Forwarding.{mem_wb_holds};

use crate::{ExMem, MemWb};
use isa::registers::{PROCESSOR_NAME, read_reg};

// CPUID's words for R1 and R2 over `v`, where it is on: a flag and a word, as in isa's `write_cpuid`.
#[tactic(auto, unfolding(crate::specs::Forwarding::cpuid_word))]
fn cpuid_word(on: bool, features: u32, r: u8, v: u32) -> u32
    ensures { result ≡ cpuid_word on features r v }
{
    match r {
        1 if on => PROCESSOR_NAME,
        2 if on => features,
        _ => v,
    }
}

// The two latches answer apart: a trait for both would need each one's word, its test for a load and its definitions
// once more for each of them.
impl MemWb {
    // Whether it holds register `r`: it is valid and writes it.
    #[tactic(auto, unfolding(isa::specs::Registers::is_dest))]
    pub fn holds(self, r: u8) -> bool
        ensures { result ≡ mem_wb_holds self r }
    {
        self.valid & self.writeback & (self.dest == Some(r))
    }

    // Its value for a register that it writes, then CPUID's words.
    #[tactic(auto, unfolding(crate::specs::Forwarding::from_mem_wb))]
    pub fn forward(self, features: u32, r: u8, v: u32) -> u32
        ensures { result ≡ from_mem_wb self features r v }
    {
        if self.holds(r) {
            return self.value;
        }
        cpuid_word(self.valid & self.cpuid, features, r, v)
    }
}

impl ExMem {
    // Whether it holds register `r`: the same, but never the result of a load.
    #[tactic(auto, unfolding(isa::specs::Registers::is_dest))]
    pub fn holds(self, r: u8) -> bool
        ensures { result ≡ ex_mem_holds self r }
    {
        self.valid & self.writeback & !self.is_load & (self.dest == Some(r))
    }

    // The same, but never the result of a load.
    #[tactic(auto, unfolding(crate::specs::Forwarding::from_ex_mem))]
    pub fn forward(self, features: u32, r: u8, v: u32) -> u32
        ensures { result ≡ from_ex_mem self features r v }
    {
        if self.holds(r) {
            return self.alu_result;
        }
        cpuid_word(self.valid & self.cpuid, features, r, v)
    }
}

// The value of a register as EX sees it. What is older is read only where EX/MEM does not hold it. The latches and
// the feature word come apart: `Stages`, which has them, is of a crate above, and a struct would be filled for each call.
#[tactic(auto, unfolding(crate::specs::Forwarding::forward_from, crate::specs::Forwarding::from_ex_mem))]
pub fn operand(x: ExMem, w: MemWb, features: u32, reg: &[u32; 32], r: u8) -> u32
    ensures { result ≡ forward_from x w features reg.now r }
{
    if r == 0 {
        return 0;
    }
    if x.holds(r) {
        return x.alu_result;
    }
    let old = w.forward(features, r, read_reg(reg, r));
    x.forward(features, r, old)
}
