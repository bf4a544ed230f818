// Writing a tick's events into a lent log.
ghost use Rattle.std.specs.Prelude.{◌+◌, ◌≡◌, ◌≤◌, length};
ghost use Rattle.cardlog.specs.Bytes.{access_bytes, bytes, bytes_of};
ghost use Rattle.cardlog.specs.Events.{present};
ghost use Rattle.cardlog.specs.Writing.{laid, log_written, next_free};

use crate::{Event, LOAD, RETIRED, STORE, WRITTEN};
use refusal::Refusal;

// 82 or 83.
#[tactic(auto, unfolding(crate::specs::Bytes::access_bytes, crate::specs::Bytes::four, crate::specs::Writing::laid))]
fn put_access(command: u8, addr: u32, width: u8, word: u32, rest: &mut [u8])
    requires { length (access_bytes command addr width word) ≤ length rest.old }
    ensures { rest.new ≡ laid (access_bytes command addr width word) 0 rest.old }
{
    let [a, b, c, d] = addr.to_be_bytes();
    let [e, f, g, h] = word.to_be_bytes();
    rest[..10].copy_from_slice(&[command, a, b, c, d, width, e, f, g, h]);
}

impl Event {
    // How many bytes it takes.
    #[tactic(auto, unfolding(crate::specs::Bytes::bytes_of, crate::specs::Bytes::access_bytes, crate::specs::Bytes::four))]
    pub(crate) fn size(self) -> usize
        ensures { result ≡ length (bytes_of self) }
    {
        match self {
            Event::Retired { .. } => 5,
            Event::Written { .. } => 6,
            Event::Load { .. } | Event::Store { .. } => 10,
        }
    }

    // Its bytes at the front of the log's rest.
    #[tactic(auto, unfolding(crate::specs::Bytes::bytes_of, crate::specs::Bytes::four, crate::specs::Writing::laid))]
    fn put(self, rest: &mut [u8])
        requires { length (bytes_of self) ≤ length rest.old }
        ensures { rest.new ≡ laid (bytes_of self) 0 rest.old }
    {
        match self {
            Event::Retired { pc } => {
                let [a, b, c, d] = pc.to_be_bytes();
                rest[..5].copy_from_slice(&[RETIRED, a, b, c, d]);
            }
            Event::Written { register, word } => {
                let [a, b, c, d] = word.to_be_bytes();
                rest[..6].copy_from_slice(&[WRITTEN, register, a, b, c, d]);
            }
            Event::Load { addr, width, word } => put_access(LOAD, addr, width, word, rest),
            Event::Store { addr, width, word } => put_access(STORE, addr, width, word, rest),
        }
    }
}

// How many bytes the events take.
fn size_of(events: &[Option<Event>]) -> usize
    requires { length events.now ≤ 5 }
    ensures { result ≡ length (bytes (present events.now)) }
{
    let mut size = 0;
    for slot in events {
        if let Some(event) = slot {
            size += event.size();
        }
    }
    size
}

// Their bytes from a place of the log on, and the place behind them.
fn put(events: &[Option<Event>], at: usize, log: &mut [u8]) -> usize
    requires { at + length (bytes (present events.now)) ≤ length log.old }
    ensures log { log.new ≡ laid (bytes (present events.now)) at log.old }
    ensures at { result ≡ at + length (bytes (present events.now)) }
{
    let mut next = at;
    for slot in events {
        if let Some(event) = slot {
            event.put(&mut log[next..]);
            next += event.size();
        }
    }
    next
}

// Writes the events from the first free place on; the next free place, or 14 and nothing is written.
#[tactic(auto, unfolding(crate::specs::Writing::next_free, crate::specs::Writing::log_written, crate::specs::Writing::fits))]
pub fn write(events: [Option<Event>; 5], at: usize, log: &mut [u8]) -> Result<usize, Refusal>
    ensures at { result ≡ next_free (bytes (present events)) at log.old }
    ensures log { log.new ≡ log_written (bytes (present events)) at log.old }
{
    let room = log.len().checked_sub(at).ok_or(Refusal::LogFull)?;
    if room < size_of(&events) {
        return Err(Refusal::LogFull);
    }
    Ok(put(&events, at, log))
}
