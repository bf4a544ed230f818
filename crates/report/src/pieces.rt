// The pieces that are put behind the text in a lent buffer.
ghost use Rattle.std.specs.Prelude.{[], ◌≡◌};
ghost use Rattle.report.specs.Ascii.{decimal, line, value};
ghost use Rattle.report.specs.Inner.{Holds, Puts};

use crate::Text;
use digits::{Base, put_digits};

impl<'a> Text<'a> {
    // Nothing is put yet.
    pub(crate) fn new(out: &'a mut [u8]) -> Text<'a>
        ensures same_reference { result.out.ghost_name ≡ out.entry.ghost_name }
        ensures empty { Holds out.old [] result }
    {
        Text { out, len: 0 }
    }

    // How many bytes of it stand in the buffer.
    pub(crate) fn len(&self) -> usize
        ensures { result ≡ self.now.len }
    {
        self.len
    }

    // Some bytes.
    pub(crate) fn put(&mut self, bytes: &[u8])
        ensures { Puts self.old bytes.now self.new }
    {
        let n = bytes.len().min(self.out.len() - self.len);
        let end = self.len + n;
        self.out[self.len..end].copy_from_slice(&bytes[..n]);
        self.len = end;
    }

    // A number in decimal.
    pub(crate) fn put_number(&mut self, n: u64)
        ensures { Puts self.old (decimal n) self.new }
    {
        let mut digits = [0u8; 20];
        let from = put_digits(Base::Decimal, n, &mut digits);
        self.put(&digits[from..]);
    }

    // What follows a line's name: a space, a number and the line's end.
    #[tactic(auto, using(crate::proofs::Put::put_both), unfolding(crate::specs::Ascii::value))]
    pub(crate) fn put_value(&mut self, n: u64)
        ensures { Puts self.old (value n) self.new }
    {
        self.put(b" ");
        self.put_number(n);
        self.put(b"\n");
    }

    // A line.
    #[tactic(auto, using(crate::proofs::Put::put_both), unfolding(crate::specs::Ascii::line))]
    pub(crate) fn put_line(&mut self, name: &[u8], n: u64)
        ensures { Puts self.old (line name.now n) self.new }
    {
        self.put(name);
        self.put_value(n);
    }
}
