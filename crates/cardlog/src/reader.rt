// The reader: one event at a place of a log, with the next place.
ghost use Rattle.std.specs.Prelude.{◌≡◌, cond};
ghost use Rattle.cardlog.specs.Names.{Loaded, Stored};
ghost use Rattle.cardlog.specs.Reading.{access_in, found_in, read, retired_in, written_in};

use crate::{Event, LOAD, RETIRED, Read, STORE, WRITTEN};
use isa::registers::is_reg;
use latch::bounds::bad_width;
use refusal::Refusal;

// An entry 80.
#[tactic(auto, unfolding(crate::specs::Reading::retired_in, crate::specs::Reading::word_at))]
fn retired_in(rest: &[u8]) -> Result<Option<Event>, Refusal>
    ensures { result ≡ retired_in rest.now }
{
    let [_, a, b, c, d, ..] = *rest else {
        return Err(Refusal::ShortLog);
    };
    let pc = u32::from_be_bytes([a, b, c, d]);
    Ok(Some(Event::Retired { pc }))
}

// An entry 81.
#[tactic(auto, unfolding(crate::specs::Reading::written_in, crate::specs::Reading::word_at))]
fn written_in(rest: &[u8]) -> Result<Option<Event>, Refusal>
    ensures { result ≡ written_in rest.now }
{
    let [_, register, a, b, c, d, ..] = *rest else {
        return Err(Refusal::ShortLog);
    };
    if !is_reg(register) {
        return Err(Refusal::BadEntry);
    }
    let word = u32::from_be_bytes([a, b, c, d]);
    Ok(Some(Event::Written { register, word }))
}

// An entry 82 or 83.
#[tactic(auto, unfolding(crate::specs::Reading::access_in, crate::specs::Reading::word_at))]
fn access_in(store: bool, rest: &[u8]) -> Result<Option<Event>, Refusal>
    ensures { result ≡ access_in (cond store Stored Loaded) rest.now }
{
    let [_, a, b, c, d, width, e, f, g, h, ..] = *rest else {
        return Err(Refusal::ShortLog);
    };
    if bad_width(width) {
        return Err(Refusal::BadEntry);
    }
    let addr = u32::from_be_bytes([a, b, c, d]);
    let word = u32::from_be_bytes([e, f, g, h]);
    if store {
        return Ok(Some(Event::Store { addr, width, word }));
    }
    Ok(Some(Event::Load { addr, width, word }))
}

// What the log holds at its front.
#[tactic(auto, unfolding(crate::specs::Reading::found_in, crate::specs::Reading::entry_in))]
fn found_in(rest: &[u8]) -> Result<Option<Event>, Refusal>
    ensures { result ≡ found_in rest.now }
{
    match *rest {
        [] => Ok(None),
        [RETIRED, ..] => retired_in(rest),
        [WRITTEN, ..] => written_in(rest),
        [LOAD, ..] => access_in(false, rest),
        [STORE, ..] => access_in(true, rest),
        _ => Err(Refusal::BadEntry),
    }
}

// Reads one event of a log.
#[tactic(auto, unfolding(crate::specs::Reading::read, crate::specs::Reading::moved))]
pub fn read(log: &[u8], at: usize) -> Read
    ensures { result ≡ read log.now at }
{
    let found = found_in(&log[at.min(log.len())..]);
    let next = match found {
        Ok(Some(event)) => at + event.size(),
        _ => at,
    };
    Read { found, at: next }
}
