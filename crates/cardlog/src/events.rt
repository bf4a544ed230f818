// The events of one tick.
ghost use Rattle.std.specs.Prelude.{[], ◌++◌, ◌≡◌, cond, option_to_list};
ghost use Rattle.cardlog.specs.Events.{access_events, dest_events, present, retire_events};

use crate::Event;
use isa::Request;
use isa::registers::{PROCESSOR_NAME, is_reg};
use latch::MemWb;

// A destination that is written back, if it is one of R1 to R31.
#[tactic(auto, unfolding(crate::specs::Events::dest_events))]
fn written(writeback: bool, dest: Option<u8>, word: u32) -> Option<Event>
    ensures { option_to_list result ≡ cond writeback (dest_events dest word) [] }
{
    match dest {
        Some(register) if writeback && is_reg(register) => Some(Event::Written { register, word }),
        _ => None,
    }
}

// A load with its answer, or a store.
#[tactic(auto, unfolding(crate::specs::Events::access_events))]
fn access(request: Option<Request>, answer: u32) -> Option<Event>
    ensures { option_to_list result ≡ access_events request answer }
{
    match request? {
        Request::Load { addr, width } => Some(Event::Load {
            addr,
            width,
            word: answer,
        }),
        Request::Store { addr, width, word } => Some(Event::Store { addr, width, word }),
    }
}

// What MEM/WB retires, and then the load or store that is asked for, each event in its place of the log's order.
pub fn events_of(
    w: MemWb,
    features: u32,
    request: Option<Request>,
    answer: u32,
) -> [Option<Event>; 5]
    ensures { present result ≡ retire_events w features ++ access_events request answer }
{
    let retired = w.valid.then_some(Event::Retired { pc: w.pc });
    let cpuid = w.valid & w.cpuid;
    let r1 = cpuid.then_some(Event::Written {
        register: 1,
        word: PROCESSOR_NAME,
    });
    let r2 = cpuid.then_some(Event::Written {
        register: 2,
        word: features,
    });
    let dest = written(w.valid & w.writeback, w.dest, w.value);
    [retired, r1, r2, dest, access(request, answer)]
}
