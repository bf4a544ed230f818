// What the programs of the bench are given: how often, and the inputs of a run or a play.
//
// Wrong programs that the promises rule out:
// - number: the low byte first (low_byte_first); a byte past the end taken for 255.
// - Given::of: the rounds taken for the limit (rounds_as_the_limit); the sheet with the limit's bytes before it.
#![tactic(auto)]

ghost use Rattle.std.specs.Prelude.{◌↔◌, ◌≡◌, ◌≤◌, IfSome, IsSome, length};
ghost use Rattle.bench.specs.Given.{IsGiven};
ghost use Rattle.bench.specs.Number.{number_at};

use sheet::Inputs;

// The number of the four bytes from `at` on, high byte first; bytes past the end are 0. The place is a parameter, since the
// promise names it and two numbers are read from one input. `as`, since the library has no `From` of 32 bits for `usize`.
#[tactic(auto, unfolding(crate::specs::Number::joined, crate::specs::Number::number_at))]
pub fn number(buf: &[u8], at: u32) -> u32
    ensures { result ≡ number_at buf.now at }
{
    let from = at as usize;
    let byte = |k: usize| buf.get(from + k).copied().unwrap_or(0);
    u32::from_be_bytes([byte(0), byte(1), byte(2), byte(3)])
}

// The input of a program of the bench: two numbers of four bytes each, high byte first, then the sheet. What a run or a
// play is given besides are the load answers; there is no special register.
#[derive(Clone, Copy, Debug)]
pub struct Given<'a> {
    pub rounds: u32,
    pub inputs: Inputs<'a>,
}

impl<'a> Given<'a> {
    // None where the input is too short for the two numbers.
    pub fn of(input: &'a [u8], answers: &'a [u32]) -> Option<Given<'a>>
        ensures given { IfSome result (IsGiven input.now answers.now) }
        ensures long_enough { IsSome result ↔ (8 ≤ length input.now) }
    {
        let sheet = input.get(8..)?;
        Some(Given {
            rounds: number(input, 0),
            inputs: Inputs {
                sheet,
                answers,
                table: &[],
                limit: number(input, 4),
            },
        })
    }
}
