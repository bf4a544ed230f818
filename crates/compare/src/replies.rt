// What the proved functions answer.
use crate::cases::code;
use crate::line::{Line, ToNumbers};
use isa::Operands;
use origin::{Origin, Origins};
use pipeline::{Execution, Forwarded, Ticked, Wanted};
use refusal::Refusal;

// The value behind 0, or the number of the refusal alone.
impl<T: ToNumbers> ToNumbers for Result<T, Refusal> {
    fn to_numbers(self, line: &mut Line, at: usize) -> usize {
        let at = line.push(at, code(self));
        match self {
            Ok(value) => line.write(at, value),
            Err(_) => at,
        }
    }
}

// The sources stand there twice, as those that the instruction reads and as those that it waits for.
impl ToNumbers for Operands {
    fn to_numbers(self, line: &mut Line, at: usize) -> usize {
        let at = line.write(at, (self.src_a, self.src_b, self.n_srcs));
        let at = line.write(at, (self.dest, self.is_load, self.is_store));
        line.write(at, (self.src_a, self.src_b, self.latency.unwrap_or(0)))
    }
}

impl ToNumbers for Ticked {
    fn to_numbers(self, line: &mut Line, at: usize) -> usize {
        line.write(at, (code(self.outcome), self.state))
    }
}

impl ToNumbers for Wanted {
    fn to_numbers(self, line: &mut Line, at: usize) -> usize {
        let at = line.write(at, (self.fetch, self.request));
        line.write(at, (self.special, self.origins))
    }
}

// The places in their order, from 1 on. `as` alone reads the number of an enum's variant.
impl ToNumbers for Origin {
    fn to_numbers(self, line: &mut Line, at: usize) -> usize {
        line.push(at, self as u32 + 1)
    }
}

impl ToNumbers for Origins {
    fn to_numbers(self, line: &mut Line, at: usize) -> usize {
        line.write(at, (self.a, self.b))
    }
}

impl ToNumbers for Forwarded {
    fn to_numbers(self, line: &mut Line, at: usize) -> usize {
        line.write(at, (self.word, self.origin))
    }
}

impl ToNumbers for Execution {
    fn to_numbers(self, line: &mut Line, at: usize) -> usize {
        line.write(at, (self.ex_mem, self.redirect, self.origins))
    }
}
