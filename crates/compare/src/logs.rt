// Card logs: the one that is held from line to line, and those that a case has with it.
use crate::cases::code;
use crate::held::first;
use crate::line::{Line, ToNumbers};
use crate::numbers::Malformed;
use cardlog::reader::read;
use cardlog::{Event, Read};
use logging::{LoggedTick, tick_logged};
use pipeline::{Given, PipelineCpu, Ticked};
use std::alloc::{AllocError, Global};

// How many bytes the held log has.
const HELD: usize = 4096;

// What its bytes are at first.
const FILL: u8 = 0xFF;

// An entry's command, and what it says; zeros for the end.
impl ToNumbers for Option<Event> {
    fn to_numbers(self, line: &mut Line, at: usize) -> usize {
        line.write(
            at,
            match self {
                None => [0; 4],
                Some(Event::Retired { pc }) => [0x80, pc, 0, 0],
                Some(Event::Written { register, word }) => [0x81, u32::from(register), word, 0],
                Some(Event::Load { addr, width, word }) => [0x82, addr, u32::from(width), word],
                Some(Event::Store { addr, width, word }) => [0x83, addr, u32::from(width), word],
            },
        )
    }
}

impl ToNumbers for Read {
    fn to_numbers(self, line: &mut Line, at: usize) -> usize {
        line.write(
            at,
            (code(self.found), self.found.unwrap_or_default(), self.at),
        )
    }
}

// The code and the next free place, the log's bytes, and the state then.
type Logged = ((u32, usize), [u8; 64], PipelineCpu);

// A tick that keeps the first so many of 64 bytes as its log. `as` here and below, since the library has no `From` of
// 32 bits for `usize`.
pub fn logged(
    (ticks, length, mut bytes): ((PipelineCpu, Given, usize), u32, [u8; 64]),
) -> Result<Logged, Malformed> {
    let (state, given, free) = ticks;
    let log = bytes.get_mut(..length as usize).ok_or(Malformed)?;
    let LoggedTick { ticked, free } = tick_logged(state, given, free, log);
    Ok(((code(ticked.outcome), free), bytes, ticked.state))
}

// One event at a place of the first so many of 64 bytes.
pub fn reading((length, at, bytes): (u32, usize, [u8; 64])) -> Result<Read, Malformed> {
    Ok(read(first(&bytes, length)?, at))
}

// The log that is held: its bytes, how many of them a tick is lent, and the first free place.
#[derive(Drop)]
pub struct HeldLog {
    bytes: Vec<u8>,
    length: usize,
    pub free: usize,
}

impl HeldLog {
    pub fn new(alloc: Global) -> Result<HeldLog, AllocError> {
        Ok(HeldLog {
            bytes: vec![in alloc; FILL; HELD]?,
            length: 0,
            free: 0,
        })
    }

    // A log with nothing in it.
    pub fn begin(&mut self, (length, free): (u32, usize)) -> Result<(), Malformed> {
        let length = length as usize;
        if length > self.bytes.len() {
            return Err(Malformed);
        }
        self.bytes.as_mut_slice().fill(FILL);
        self.length = length;
        self.free = free;
        Ok(())
    }

    // A tick that keeps it.
    pub fn tick(&mut self, state: PipelineCpu, given: Given) -> Result<Ticked, Malformed> {
        let log = self
            .bytes
            .as_mut_slice()
            .get_mut(..self.length)
            .ok_or(Malformed)?;
        let LoggedTick { ticked, free } = tick_logged(state, given, self.free, log);
        self.free = free;
        Ok(ticked)
    }

    // The 256 bytes from a place on.
    pub fn bytes_at(&self, at: u32) -> Result<[u8; 256], Malformed> {
        let from = self.bytes.as_slice().get(at as usize..).ok_or(Malformed)?;
        from.first_chunk().copied().ok_or(Malformed)
    }

    // One event at a place of the first so many bytes.
    pub fn read(&self, (length, at): (u32, usize)) -> Result<Read, Malformed> {
        Ok(read(first(self.bytes.as_slice(), length)?, at))
    }
}
