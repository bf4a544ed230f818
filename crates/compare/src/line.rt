// A result line: numbers, to which values are written in order.
use digits::{Base, put_digits};

// A value that is written to a line as so many numbers, from a place on; the answer is the place behind them. The place
// is handed on from number to number, since one kept beside the numbers makes each wait for the one before: that takes half
// as long again for a whole state.
pub trait ToNumbers: Copy {
    fn to_numbers(self, line: &mut Line, at: usize) -> usize;
}

// How many numbers a line has room for. The longest has 140.
const ROOM: usize = 192;

#[derive(Drop)]
pub struct Line {
    numbers: [u32; ROOM],
    count: usize,
}

// Puts a byte into a text at a place, and answers the place behind it.
fn put_byte(text: &mut [u8], at: usize, byte: u8) -> usize {
    match text.get_mut(at) {
        Some(place) => {
            *place = byte;
            at + 1
        }
        None => at,
    }
}

impl Line {
    // One without numbers.
    pub fn new() -> Line {
        Line {
            numbers: [0; ROOM],
            count: 0,
        }
    }

    // Takes all its numbers away.
    pub fn clear(&mut self) {
        self.count = 0;
    }

    // Makes it the line of a value.
    pub fn fill<T: ToNumbers>(&mut self, value: T) {
        self.count = self.write(0, value);
    }

    // Puts a number at a place.
    pub fn push(&mut self, at: usize, number: u32) -> usize {
        match self.numbers.get_mut(at) {
            Some(place) => {
                *place = number;
                at + 1
            }
            None => at,
        }
    }

    // Puts a value's numbers from a place on.
    pub fn write<T: ToNumbers>(&mut self, at: usize, value: T) -> usize {
        value.to_numbers(self, at)
    }

    // Puts the line into a text at a place, and answers the place behind it: the numbers in hexadecimal, with single
    // spaces between, and the line's end. The library's formatter takes several times as long, and a copy of so few
    // digits longer than one after the other.
    pub fn put(&self, text: &mut [u8], from: usize) -> usize {
        let mut at = from;
        let mut digits = [0; 20];
        let numbers = self.numbers.get(..self.count).unwrap_or_default();
        for (k, number) in numbers.iter().enumerate() {
            if k > 0 {
                at = put_byte(text, at, b' ');
            }
            let first = put_digits(Base::Hexadecimal, u64::from(*number), &mut digits);
            for digit in &digits[first..] {
                at = put_byte(text, at, *digit);
            }
        }
        put_byte(text, at, b'\n')
    }
}
