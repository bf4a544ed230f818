// Runs and plays of the first of what is held, and their reports.
use crate::conversions::low_word;
use crate::line::{Line, ToNumbers};
use crate::requests::Requests;
use pipeline::PipelineCpu;
use player::{Played, PlayerEnd};
use runs::Ran;
use sheet::{End, Inputs};

// 0 halted, 1 spent, 2 loads, 3 refused with its number.
impl ToNumbers for End {
    fn to_numbers(self, line: &mut Line, at: usize) -> usize {
        line.write(
            at,
            match self {
                End::Halted => [0, 0],
                End::Spent => [1, 0],
                End::Loads => [2, 0],
                End::Refused(refusal) => [3, refusal.number()],
                End::Numbered(number) => [3, number],
            },
        )
    }
}

// The same, and 4 stopped. The two ends are enums of two crates, and have only these numbers in common.
impl ToNumbers for PlayerEnd {
    fn to_numbers(self, line: &mut Line, at: usize) -> usize {
        line.write(
            at,
            match self {
                PlayerEnd::Halted => [0, 0],
                PlayerEnd::Spent => [1, 0],
                PlayerEnd::Loads => [2, 0],
                PlayerEnd::Refused(refusal) => [3, refusal.number()],
                PlayerEnd::Stopped => [4, 0],
            },
        )
    }
}

// A run, and the requests of its ticks.
#[derive(Clone, Copy)]
pub struct Report {
    ran: Ran,
    requests: Requests,
}

impl Report {
    fn of(state: PipelineCpu, inputs: Inputs<'_>, ran: Ran) -> Report {
        Report {
            ran,
            requests: Requests::of(state, inputs, ran.ticks),
        }
    }

    pub fn run(state: PipelineCpu, inputs: Inputs<'_>) -> Report {
        Report::of(state, inputs, runner::run(state, inputs))
    }

    pub fn preview(state: PipelineCpu, inputs: Inputs<'_>) -> Report {
        Report::of(state, inputs, panel::preview(state, inputs))
    }
}

impl ToNumbers for Report {
    fn to_numbers(self, line: &mut Line, at: usize) -> usize {
        let at = line.write(at, (self.ran.end, self.ran.ticks));
        line.write(at, (self.requests, self.ran.state))
    }
}

// `as`, since the library has no `From` of `usize` for 64 bits.
impl ToNumbers for Played {
    fn to_numbers(self, line: &mut Line, at: usize) -> usize {
        let at = line.write(at, (self.end, self.done));
        line.write(at, (low_word(self.used as u64), self.values))
    }
}
