// The card log: the events of a tick, their bytes in a lent buffer, and the reader.
//
// Wrong programs that the promises rule out, for each function two or more. A name in brackets is the must-fail edit
// that tries one:
// - events_of: the load or store before the retirement (load_before_retired); the destination before CPUID's registers
//   (destination_before_cpuid); R0 as a register written (r0_logged).
// - write: a word with its low byte first (low_byte_first); a part of the events left behind where they do not all fit
//   (part_left_behind); room for one byte more than there is.
// - read: 21 for a register outside 1 to 31 before 22 (register_before_length); the place moved by a refusal
//   (refused_place_moved); a width of 3.
#![tactic(auto)]

pub mod events;
pub mod reader;
pub mod writer;

use refusal::Refusal;

// One event: an instruction retired, a register written, a load, a store.
#[derive(Clone, Copy, Debug, PartialEq, Eq)]
pub enum Event {
    Retired { pc: u32 },
    Written { register: u8, word: u32 },
    Load { addr: u32, width: u8, word: u32 },
    Store { addr: u32, width: u8, word: u32 },
}

// What stands at a place of a log, and the next place. Where no event stands there, the place is not moved.
#[derive(Clone, Copy, Debug, PartialEq, Eq)]
pub struct Read {
    pub found: Result<Option<Event>, Refusal>,
    pub at: usize,
}

// The commands of entries.
const RETIRED: u8 = 0x80;

const WRITTEN: u8 = 0x81;

const LOAD: u8 = 0x82;

const STORE: u8 = 0x83;
