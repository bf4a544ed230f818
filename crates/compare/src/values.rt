// The plainest values: flags, bytes, halves, words, counters, and groups of such.
use crate::conversions::{low_half, low_word};
use crate::line::{Line, ToNumbers};
use crate::numbers::{FromNumbers, Malformed, Numbers};

// Nothing.
impl FromNumbers for () {
    fn from_numbers(_numbers: &mut Numbers<'_>) -> Result<(), Malformed> {
        Ok(())
    }
}

impl FromNumbers for u32 {
    fn from_numbers(numbers: &mut Numbers<'_>) -> Result<u32, Malformed> {
        numbers.number()
    }
}

// A value that one number stands for.
pub trait OneNumber: Copy + Into<u32> {}

impl OneNumber for u32 {}

impl OneNumber for bool {}

impl OneNumber for u8 {}

impl OneNumber for u16 {}

impl<T: OneNumber> ToNumbers for T {
    fn to_numbers(self, line: &mut Line, at: usize) -> usize {
        line.push(at, self.into())
    }
}

impl FromNumbers for bool {
    fn from_numbers(numbers: &mut Numbers<'_>) -> Result<bool, Malformed> {
        Ok(numbers.number()? == 1)
    }
}

// 255 for a larger number.
impl FromNumbers for u8 {
    fn from_numbers(numbers: &mut Numbers<'_>) -> Result<u8, Malformed> {
        Ok(u8::try_from(numbers.number()?).unwrap_or(u8::MAX))
    }
}

// The low half of a larger number.
impl FromNumbers for u16 {
    fn from_numbers(numbers: &mut Numbers<'_>) -> Result<u16, Malformed> {
        Ok(low_half(numbers.number()?))
    }
}

// The high half first.
impl FromNumbers for u64 {
    fn from_numbers(numbers: &mut Numbers<'_>) -> Result<u64, Malformed> {
        let high = u64::from(numbers.number()?);
        let low = u64::from(numbers.number()?);
        Ok(high << 32 | low)
    }
}

impl ToNumbers for u64 {
    fn to_numbers(self, line: &mut Line, at: usize) -> usize {
        let at = line.push(at, low_word(self >> 32));
        line.push(at, low_word(self))
    }
}

// A place of a list. `as`, since the library has no conversions between `usize` and 64 bits.
impl FromNumbers for usize {
    fn from_numbers(numbers: &mut Numbers<'_>) -> Result<usize, Malformed> {
        let place: u64 = numbers.read()?;
        Ok(place as usize)
    }
}

impl ToNumbers for usize {
    fn to_numbers(self, line: &mut Line, at: usize) -> usize {
        line.write(at, self as u64)
    }
}

impl<const N: usize> FromNumbers for [u32; N] {
    fn from_numbers(numbers: &mut Numbers<'_>) -> Result<[u32; N], Malformed> {
        let mut words = [0; N];
        // A copy stays in the processor's registers.
        let mut left = *numbers;
        for word in &mut words {
            *word = left.number()?;
        }
        *numbers = left;
        Ok(words)
    }
}

// The bytes of words, each high byte first.
impl<const N: usize> FromNumbers for [u8; N] {
    fn from_numbers(numbers: &mut Numbers<'_>) -> Result<[u8; N], Malformed> {
        let mut bytes = [0; N];
        for word in bytes.chunks_exact_mut(4) {
            word.copy_from_slice(&numbers.number()?.to_be_bytes());
        }
        Ok(bytes)
    }
}

impl<const N: usize> ToNumbers for [u8; N] {
    fn to_numbers(self, line: &mut Line, at: usize) -> usize {
        let mut at = at;
        for word in self.chunks_exact(4) {
            at = line.push(at, u32::from_be_bytes([word[0], word[1], word[2], word[3]]));
        }
        at
    }
}

impl<const N: usize> ToNumbers for [u32; N] {
    fn to_numbers(self, line: &mut Line, at: usize) -> usize {
        let mut at = at;
        for word in self {
            at = line.push(at, word);
        }
        at
    }
}

impl<const N: usize> ToNumbers for [u16; N] {
    fn to_numbers(self, line: &mut Line, at: usize) -> usize {
        let mut at = at;
        for half in self {
            at = line.write(at, half);
        }
        at
    }
}

// Each length of a tuple has an impl of its own, as in the library.
impl<A: FromNumbers, B: FromNumbers> FromNumbers for (A, B) {
    fn from_numbers(numbers: &mut Numbers<'_>) -> Result<(A, B), Malformed> {
        Ok((numbers.read()?, numbers.read()?))
    }
}

impl<A: ToNumbers, B: ToNumbers> ToNumbers for (A, B) {
    fn to_numbers(self, line: &mut Line, at: usize) -> usize {
        let at = line.write(at, self.0);
        line.write(at, self.1)
    }
}

impl<A: FromNumbers, B: FromNumbers, C: FromNumbers> FromNumbers for (A, B, C) {
    fn from_numbers(numbers: &mut Numbers<'_>) -> Result<(A, B, C), Malformed> {
        Ok((numbers.read()?, numbers.read()?, numbers.read()?))
    }
}

impl<A: ToNumbers, B: ToNumbers, C: ToNumbers> ToNumbers for (A, B, C) {
    fn to_numbers(self, line: &mut Line, at: usize) -> usize {
        let at = line.write(at, self.0);
        let at = line.write(at, self.1);
        line.write(at, self.2)
    }
}
