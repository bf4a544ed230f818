// The requests of a run's ticks, by asking before each: how many, and a hash of them in order.
use crate::line::{Line, ToNumbers};
use isa::Request;
use pipeline::{Given, PipelineCpu};
use sheet::Inputs;
use sheet::offer::offer_at;
use sheet::specials::special_at;

// What the hash begins with.
const HASH_OF_NONE: u32 = 2166136261;

// What it is multiplied by at each number.
const HASH_FACTOR: u32 = 16777619;

// 1 load, 2 store; its address, its width, and its word, 0 for a load.
fn numbers_of(request: Request) -> [u32; 4] {
    match request {
        Request::Load { addr, width } => [1, addr, u32::from(width), 0],
        Request::Store { addr, width, word } => [2, addr, u32::from(width), word],
    }
}

impl ToNumbers for Option<Request> {
    fn to_numbers(self, line: &mut Line, at: usize) -> usize {
        line.write(at, self.map_or([0; 4], numbers_of))
    }
}

#[derive(Clone, Copy)]
pub struct Requests {
    count: u32,
    hash: u32,
}

impl ToNumbers for Requests {
    fn to_numbers(self, line: &mut Line, at: usize) -> usize {
        line.write(at, (self.count, self.hash))
    }
}

impl Requests {
    fn add(&mut self, request: Request) {
        self.count = self.count.wrapping_add(1);
        for number in numbers_of(request) {
            self.hash = (self.hash ^ number).wrapping_mul(HASH_FACTOR);
        }
    }

    // Those of so many ticks from a state, which tell no wait.
    pub fn of(mut state: PipelineCpu, inputs: Inputs<'_>, ticks: u32) -> Requests {
        let mut requests = Requests {
            count: 0,
            hash: HASH_OF_NONE,
        };
        let mut answers = inputs.answers.iter().copied();
        for _ in 0..ticks {
            let wanted = state.ask().unwrap_or_default();
            let answer = match wanted.request {
                Some(Request::Load { .. }) => answers.next(),
                _ => None,
            };
            let given = Given {
                offer: wanted.fetch.map(|place| offer_at(inputs.sheet, place)),
                answer,
                special: special_at(inputs.table, wanted.special),
                fetch_wait: 0,
                load_wait: 0,
            };
            state = state.tick(given).state;
            if let Some(request) = wanted.request {
                requests.add(request);
            }
        }
        requests
    }
}
