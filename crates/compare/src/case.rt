// A case: its kind, the numbers of what it is given, and the line that answers it.
use crate::kind::Kind;
use crate::line::{Line, ToNumbers};
use crate::numbers::{FromNumbers, Malformed, Numbers};

#[derive(Drop)]
pub struct Case<'a> {
    pub kind: Kind,
    numbers: Numbers<'a>,
    line: &'a mut Line,
}

impl<'a> Case<'a> {
    pub fn new(text: &'a [u8], line: &'a mut Line) -> Result<Case<'a>, Malformed> {
        let mut numbers = Numbers::new(text)?;
        Ok(Case {
            kind: Kind::try_from(numbers.number()?)?,
            numbers,
            line,
        })
    }

    // What it is given.
    pub fn input<T: FromNumbers>(&self) -> Result<T, Malformed> {
        self.numbers.whole()
    }

    // Answers it with the line of a value.
    pub fn reply<O: ToNumbers>(self, value: O) -> Result<bool, Malformed> {
        self.line.fill(value);
        Ok(true)
    }

    // Answers it with what a function makes of what it is given.
    pub fn answer<I: FromNumbers, O: ToNumbers, F: FnOnce(I) -> O>(
        self,
        function: F,
    ) -> Result<bool, Malformed>
        requires { F.IsAlwaysCallable function }
    {
        self.try_answer(|input| Ok(function(input)))
    }

    // The same of a function that may find that the numbers are no case.
    pub fn try_answer<I: FromNumbers, O: ToNumbers, F: FnOnce(I) -> Result<O, Malformed>>(
        self,
        function: F,
    ) -> Result<bool, Malformed>
        requires { F.IsAlwaysCallable function }
    {
        let value = function(self.input()?)?;
        self.reply(value)
    }
}
