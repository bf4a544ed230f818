// Reading and writing the registers.
ghost use Rattle.std.specs.Prelude.{◌≡◌};
ghost use Rattle.isa.specs.Registers.{is_reg, put_reg, read_reg, write_cpuid, write_reg};

// The processor's name, which CPUID gives.
pub const PROCESSOR_NAME: u32 = 0x53524332;

// Whether it is one of R1 to R31, the registers that can be written.
#[tactic(auto, unfolding(crate::specs::Registers::is_reg))]
pub fn is_reg(r: u8) -> bool
    ensures { result ≡ is_reg r }
{
    0 < r && r < 32
}

// The value of a register; R0 reads as 0.
#[tactic(auto, unfolding(crate::specs::Registers::is_reg, crate::specs::Registers::read_reg))]
pub fn read_reg(reg: &[u32; 32], r: u8) -> u32
    ensures { result ≡ read_reg reg.now r }
{
    if is_reg(r) {
        return reg[usize::from(r)];
    }
    0
}

// A word for a register from R1 to R31; no other is written.
#[tactic(auto, unfolding(crate::specs::Registers::is_reg, crate::specs::Registers::put_reg))]
pub fn put_reg(k: u8, v: u32, reg: &mut [u32; 32])
    ensures { reg.new ≡ put_reg k v reg.old }
{
    if is_reg(k) {
        reg[usize::from(k)] = v;
    }
}

// A word for a destination.
#[tactic(auto, unfolding(crate::specs::Registers::write_reg))]
pub fn write_reg(dest: Option<u8>, v: u32, reg: &mut [u32; 32])
    ensures { reg.new ≡ write_reg dest v reg.old }
{
    let Some(k) = dest else {
        return;
    };
    put_reg(k, v, reg);
}

// CPUID's two words, where it is on. A flag and a word, and no option: the mark is an instruction's, the word the state's.
#[tactic(auto, unfolding(crate::specs::Registers::write_cpuid))]
pub fn write_cpuid(on: bool, features: u32, reg: &mut [u32; 32])
    ensures { reg.new ≡ write_cpuid on features reg.old }
{
    if on {
        reg[1] = PROCESSOR_NAME;
        reg[2] = features;
    }
}
