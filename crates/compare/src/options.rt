// Modes, and values that may be none. Their numbers are a case line's (tests/CASES.md), and are told apart here alone.
// `as` alone reads the number of an enum's variant.
use crate::conversions::{low_byte, low_half};
use crate::line::{Line, ToNumbers};
use crate::numbers::{FromNumbers, Malformed, Numbers};
use isa::{Exception, Mode, Mtsr, Place};
use origin::Origins;

// The mode of a number. Lines have 0 and 1.
fn mode(number: u32) -> Mode {
    match number {
        0 => Mode::Normal,
        _ => Mode::Short,
    }
}

impl FromNumbers for Mode {
    fn from_numbers(numbers: &mut Numbers<'_>) -> Result<Mode, Malformed> {
        Ok(mode(numbers.number()?))
    }
}

impl ToNumbers for Mode {
    fn to_numbers(self, line: &mut Line, at: usize) -> usize {
        line.push(at, self as u32)
    }
}

// 0 for none, and else the mode's number and 1.
// A function for this and an optional register would be given the conversions of each, and be no shorter.
impl FromNumbers for Option<Mode> {
    fn from_numbers(numbers: &mut Numbers<'_>) -> Result<Option<Mode>, Malformed> {
        Ok(numbers.number()?.checked_sub(1).map(mode))
    }
}

impl ToNumbers for Option<Mode> {
    fn to_numbers(self, line: &mut Line, at: usize) -> usize {
        line.push(at, self.map_or(0, |mode| mode as u32 + 1))
    }
}

// 0 for none, and else the register's number and 1.
impl FromNumbers for Option<u8> {
    fn from_numbers(numbers: &mut Numbers<'_>) -> Result<Option<u8>, Malformed> {
        Ok(numbers.number()?.checked_sub(1).map(low_byte))
    }
}

impl ToNumbers for Option<u8> {
    fn to_numbers(self, line: &mut Line, at: usize) -> usize {
        line.push(at, self.map_or(0, |register| u32::from(register) + 1))
    }
}

impl FromNumbers for Option<Exception> {
    fn from_numbers(numbers: &mut Numbers<'_>) -> Result<Option<Exception>, Malformed> {
        Ok(match numbers.number()? {
            0 => None,
            1 => Some(Exception::PrivilegedInstruction),
            2 => Some(Exception::IllegalInstruction),
            x => Some(Exception::Syscall(low_half(x - 3))),
        })
    }
}

impl ToNumbers for Option<Exception> {
    fn to_numbers(self, line: &mut Line, at: usize) -> usize {
        line.push(
            at,
            match self {
                None => 0,
                Some(Exception::PrivilegedInstruction) => 1,
                Some(Exception::IllegalInstruction) => 2,
                Some(Exception::Syscall(imm)) => u32::from(imm) + 3,
            },
        )
    }
}

// A value behind a flag.
fn read_flagged<T: FromNumbers>(numbers: &mut Numbers<'_>) -> Result<Option<T>, Malformed> {
    let (is_some, value): (bool, T) = numbers.read()?;
    Ok(is_some.then_some(value))
}

// A flag and the value, all zeros for none.
fn flagged<T: Default>(value: Option<T>) -> (bool, T) {
    (value.is_some(), value.unwrap_or_default())
}

// A flag, the special register's number and the word.
impl FromNumbers for Option<Mtsr> {
    fn from_numbers(numbers: &mut Numbers<'_>) -> Result<Option<Mtsr>, Malformed> {
        let value = read_flagged(numbers)?;
        Ok(value.map(|(sr, value)| Mtsr { sr, value }))
    }
}

impl ToNumbers for Option<Mtsr> {
    fn to_numbers(self, line: &mut Line, at: usize) -> usize {
        line.write(at, flagged(self.map(|mtsr| (mtsr.sr, mtsr.value))))
    }
}

// A load's answer: a flag and the word.
impl FromNumbers for Option<u32> {
    fn from_numbers(numbers: &mut Numbers<'_>) -> Result<Option<u32>, Malformed> {
        read_flagged(numbers)
    }
}

// What is said of a special register: 0 nothing, 1 no such register, 2 its word.
impl FromNumbers for Option<Option<u32>> {
    fn from_numbers(numbers: &mut Numbers<'_>) -> Result<Option<Option<u32>>, Malformed> {
        let tag = numbers.number()?;
        let word = numbers.number()?;
        Ok(match tag {
            0 => None,
            1 => Some(None),
            _ => Some(Some(word)),
        })
    }
}

// A flag, the address and its mode.
impl ToNumbers for Option<Place> {
    fn to_numbers(self, line: &mut Line, at: usize) -> usize {
        line.write(at, flagged(self.map(|place| (place.pc, place.mode as u32))))
    }
}

// A special register: a flag and its number.
impl ToNumbers for Option<u16> {
    fn to_numbers(self, line: &mut Line, at: usize) -> usize {
        line.write(at, flagged(self))
    }
}

impl ToNumbers for Option<Origins> {
    fn to_numbers(self, line: &mut Line, at: usize) -> usize {
        match self {
            None => line.write(at, [0_u32; 2]),
            Some(origins) => line.write(at, origins),
        }
    }
}
