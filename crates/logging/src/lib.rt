// The tick that keeps the card log in a buffer that the caller lends.
//
// Wrong programs that the promise of `tick_logged` rules out; a name in brackets is the must-fail edit that tries one:
// 14 before the tick's own refusals (refusal_14_before_4); the tick done although its events do not fit
// (full_but_done); the store of an instruction that a HALT empties (store_behind_halt); the events of the state after
// the tick; events of a machine that does not run; events of a tick that waits for the memory.
#![tactic(auto)]

ghost use Rattle.std.specs.Prelude.{◌++◌, ◌≡◌};
ghost use Rattle.cardlog.specs.Events.{present};
ghost use Rattle.logging.specs.Logging.{events, log_after, logged};

use cardlog::Event;
use cardlog::events::events_of;
use cardlog::writer::write;
use latch::ExMem;
use pipeline::{Given, PipelineCpu, Ticked};
use stages::Stages;

// What a tick that keeps the log hands back: what the tick hands back, and the next free place of the log.
#[derive(Clone, Copy)]
pub struct LoggedTick {
    pub ticked: Ticked,
    pub free: usize,
}

// The events of a tick on these stages, with the word that answers a load.
#[tactic(auto, unfolding(crate::specs::Logging::events, cardlog::specs::Events::present, pipeline::specs::Ask::asks, stages::specs::Retire::retire_stages))]
fn events(s: Stages, answer: u32) -> [Option<Event>; 5]
    ensures { present result ≡ events s answer }
{
    if !s.is_awake() {
        return [None; 5];
    }
    let ex_mem = if s.mem_wb.halts() {
        ExMem::invalid()
    } else {
        s.ex_mem
    };
    events_of(s.mem_wb, s.features, ex_mem.request(), answer)
}

// One tick, with its events written from the first free place on. A tick that the log has no room for is refused behind
// the tick's own tests. A refused tick hands back the state it was given and writes nothing.
pub fn tick_logged(state: PipelineCpu, given: Given, free: usize, log: &mut [u8]) -> LoggedTick
    ensures handed_back { result ≡ logged state given free log.old }
    ensures log { log.new ≡ log_after state given free log.old }
{
    let ticked = state.tick(given);
    if ticked.outcome.is_err() {
        return LoggedTick { ticked, free };
    }
    match write(events(state.stages, given.answer.unwrap_or(0)), free, log) {
        Ok(free) => LoggedTick { ticked, free },
        Err(refusal) => LoggedTick {
            ticked: Ticked {
                state,
                outcome: Err(refusal),
            },
            free,
        },
    }
}
