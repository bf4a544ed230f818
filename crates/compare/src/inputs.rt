// Values that only a few cases are given.
use crate::coded::Coded;
use crate::numbers::{FromNumbers, Malformed, Numbers};
use isa::Instruction;

// A halfword; no case has a larger number in its place.
#[derive(Clone, Copy)]
pub struct Halfword(pub u16);

impl FromNumbers for Halfword {
    fn from_numbers(numbers: &mut Numbers<'_>) -> Result<Halfword, Malformed> {
        Ok(Halfword(u16::try_from(numbers.number()?)?))
    }
}

// A Normal instruction that names registers up to 31.
#[derive(Clone, Copy)]
pub struct InBounds(pub Instruction);

impl FromNumbers for InBounds {
    fn from_numbers(numbers: &mut Numbers<'_>) -> Result<InBounds, Malformed> {
        let coded: Coded = numbers.read()?;
        let instruction = Instruction::try_from(coded)?;
        if instruction.in_bounds() {
            Ok(InBounds(instruction))
        } else {
            Err(Malformed)
        }
    }
}
