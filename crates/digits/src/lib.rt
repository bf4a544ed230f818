// A number's digits, put into a lent array. `put_digits` promises both bases, and one loop serves both. The library's
// formatter puts digits into a text, and the kit's crate `itoa` decimal ones alone into a buffer of its own.
//
// Wrong programs that the promise of `put_digits` rules out: a leading zero; the digits from the last to the first; upper
// case; nothing for the number 0; a byte before the digits written too.
#![tactic(auto)]

ghost use Rattle.std.specs.Prelude.{◌%◌, ◌<◌, ◌≡◌, drop, take};
ghost use Rattle.digits.specs.Digits.{digit, digits_of, radix};

// What digits are of, numbered by how many there are.
#[derive(Clone, Copy, Debug, PartialEq, Eq)]
pub enum Base {
    Decimal = 10,
    Hexadecimal = 16,
}

impl Base {
    // How many digits it has. `as` alone reads the number of an enum's variant.
    #[tactic(auto, unfolding(crate::specs::Digits::radix))]
    fn radix(self) -> u64
        ensures { result ≡ radix self }
    {
        self as u64
    }

    // A number's last digit. What `as` cuts is below 16, and an ASCII letter; `try_from` would test that again.
    #[tactic(auto, unfolding(crate::specs::Digits::radix, crate::specs::Digits::digit))]
    fn last_digit(self, n: u64) -> u8
        ensures { result ≡ digit (n % radix self) }
    {
        let digit = char::from_digit((n % self.radix()) as u32, 16).unwrap();
        digit as u8
    }
}

// Puts a number's digits at the end of an array, and answers where they begin.
pub fn put_digits(base: Base, n: u64, out: &mut [u8; 20]) -> usize
    ensures within { result < 20 }
    ensures before { take result out.new ≡ take result out.old }
    ensures digits { drop result out.new ≡ digits_of base n }
{
    let radix = base.radix();
    let mut rest = n;
    for from in (0..20).rev() {
        out[from] = base.last_digit(rest);
        if rest < radix {
            return from;
        }
        rest /= radix;
    }
    // A number of 64 bits has at most 20 digits.
    unreachable!()
}
