// The fields of an instruction, each a number.
use crate::numbers::Malformed;
use std::num::TryFromIntError;

// A number that is none of a field's values is malformed.
pub trait Field: Copy {
    fn of(number: u32) -> Result<Self, Malformed>;

    fn number(self) -> u32;
}

// No field, whose number is 0.
impl Field for () {
    fn of(number: u32) -> Result<(), Malformed> {
        match number {
            0 => Ok(()),
            _ => Err(Malformed),
        }
    }

    fn number(self) -> u32 {
        0
    }
}

// An integer of 8 or 16 bits.
pub trait Narrow: Copy + Into<i32> + TryFrom<i32, Error = TryFromIntError> {}

impl Narrow for u8 {}

impl Narrow for u16 {}

impl Narrow for i8 {}

impl Narrow for i16 {}

// A signed field's number is by two's complement.
impl<T: Narrow> Field for T {
    fn of(number: u32) -> Result<T, Malformed> {
        Ok(T::try_from(number.cast_signed())?)
    }

    fn number(self) -> u32 {
        let number: i32 = self.into();
        number.cast_unsigned()
    }
}
