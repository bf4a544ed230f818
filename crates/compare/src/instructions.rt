// Instructions, by their numbers.
use crate::coded::Coded;
use crate::conversions::low_half;
use crate::line::{Line, ToNumbers};
use crate::numbers::{FromNumbers, Malformed, Numbers};
use isa::{Decoded, Instruction, RawInstr, ShortInstruction};

// NOP where the numbers are no instruction's.
fn normal(coded: Coded) -> Instruction {
    Instruction::try_from(coded).unwrap_or(Instruction::Nop)
}

// What stands behind a tag: a halfword, or a Normal instruction.
fn raw_behind(is_short: bool, coded: Coded) -> RawInstr {
    if is_short {
        RawInstr::Short(low_half(coded.variant))
    } else {
        RawInstr::Normal(normal(coded))
    }
}

impl FromNumbers for RawInstr {
    fn from_numbers(numbers: &mut Numbers<'_>) -> Result<RawInstr, Malformed> {
        Ok(raw_behind(numbers.read()?, numbers.read()?))
    }
}

impl ToNumbers for RawInstr {
    fn to_numbers(self, line: &mut Line, at: usize) -> usize {
        match self {
            RawInstr::Normal(instruction) => line.write(at, (false, Coded::from(instruction))),
            RawInstr::Short(half) => line.write(at, (true, half, [0_u32; 3])),
        }
    }
}

// 0 for none, 1 before a Normal instruction, 2 before a halfword. The numbers are a case line's (tests/CASES.md), and are
// told apart here alone.
impl FromNumbers for Option<RawInstr> {
    fn from_numbers(numbers: &mut Numbers<'_>) -> Result<Option<RawInstr>, Malformed> {
        let tag = numbers.number()?;
        let coded = numbers.read()?;
        Ok(match tag {
            0 => None,
            _ => Some(raw_behind(tag == 2, coded)),
        })
    }
}

impl FromNumbers for Decoded {
    fn from_numbers(numbers: &mut Numbers<'_>) -> Result<Decoded, Malformed> {
        let is_short = numbers.read()?;
        let coded: Coded = numbers.read()?;
        if is_short {
            Ok(Decoded::Short(coded.into()))
        } else {
            Ok(Decoded::Normal(normal(coded)))
        }
    }
}

impl ToNumbers for Decoded {
    fn to_numbers(self, line: &mut Line, at: usize) -> usize {
        match self {
            Decoded::Normal(instruction) => line.write(at, (false, Coded::from(instruction))),
            Decoded::Short(instruction) => line.write(at, (true, Coded::from(instruction))),
        }
    }
}

impl ToNumbers for ShortInstruction {
    fn to_numbers(self, line: &mut Line, at: usize) -> usize {
        line.write(at, Coded::from(self))
    }
}
