// The numbers of a case line, from which values are read in order.
use std::num::TryFromIntError;

// A line that has not the form of a case.
#[derive(Clone, Copy, Debug)]
pub struct Malformed;

impl From<TryFromIntError> for Malformed {
    fn from(_error: TryFromIntError) -> Malformed {
        Malformed
    }
}

// A value that stands in a line as so many numbers.
pub trait FromNumbers: Copy {
    fn from_numbers(numbers: &mut Numbers<'_>) -> Result<Self, Malformed>;
}

// The text of the numbers that are not read yet, with single spaces between; none where all are read.
#[derive(Clone, Copy)]
pub struct Numbers<'a>(Option<&'a [u8]>);

// Whether a byte is a digit. The library's readings take upper case too. `|` makes no branch between the two ranges, whose
// digits follow no pattern.
fn is_digit(byte: u8) -> bool {
    (byte.wrapping_sub(b'0') < 10) | (byte.wrapping_sub(b'a') < 6)
}

// A digit's value.
fn value_of(digit: u8) -> u8 {
    let decimal = digit.wrapping_sub(b'0');
    let letter = digit.wrapping_sub(b'a').wrapping_add(10);
    if decimal < 10 { decimal } else { letter }
}

impl<'a> Numbers<'a> {
    // Those of a line, which ends in a line end.
    pub fn new(line: &'a [u8]) -> Result<Self, Malformed> {
        let text = line.strip_suffix(b"\n").ok_or(Malformed)?;
        Ok(Numbers(Some(text)))
    }

    // The next number: 1 to 8 digits, up to a space or the end of the text.
    pub fn number(&mut self) -> Result<u32, Malformed> {
        let text = self.0.ok_or(Malformed)?;
        let mut number = 0;
        let mut count = 0;
        for (k, byte) in text.iter().enumerate() {
            if !is_digit(*byte) {
                break;
            }
            number = number << 4 | u32::from(value_of(*byte));
            count = k + 1;
        }
        if count == 0 || count > 8 {
            return Err(Malformed);
        }
        let rest = text.get(count..).unwrap_or_default();
        self.0 = match rest.split_first() {
            None => None,
            Some((b' ', rest)) => Some(rest),
            Some(_) => return Err(Malformed),
        };
        Ok(number)
    }

    // The next value.
    pub fn read<T: FromNumbers>(&mut self) -> Result<T, Malformed> {
        T::from_numbers(self)
    }

    // The value that all the numbers left are.
    pub fn whole<T: FromNumbers>(mut self) -> Result<T, Malformed> {
        let value = self.read()?;
        match self.0 {
            None => Ok(value),
            Some(_) => Err(Malformed),
        }
    }
}
