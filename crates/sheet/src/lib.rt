// The step sheet: records of five bytes, their check and what they offer a fetch; what a run is given, and the order of
// its turns.
//
// Wrong programs that the promises rule out, for each function two:
// - bad_length: 20,480 bytes refused; 20,485 accepted.
// - check: a register above 31 for a record that has an unused byte not zero too (register_before_unused_byte); each
//   record started four bytes behind the one before (moves_on_by_four); 20,485 bytes accepted.
// - first_refused: a record with an unused byte not zero passed over; the last refused record.
// - check_limited: the limit before the length; a limit of 1,000,000 refused.
// - offer_at: the second halfword of a pair at its first address; a NOP outside the sheet.
// - turn_by: spent before halted; loads where the limit is used up (spent_as_loads); loads before a faulty instruction.
// - answer_at: the answer before; the last one where none is left.
// - used_after: one more where nothing is loaded; one more where none is left.
// - special_at: the neighbour's word (neighbour_register); the last word for a number past the table's end.
#![tactic(auto)]

pub mod answers;
mod bytes;
pub mod check;
pub mod offer;
mod records;
pub mod specials;
pub mod turns;

use isa::Instruction;
use refusal::Refusal;

// A record: a Normal instruction, or a pair of short halfwords.
#[derive(Clone, Copy)]
pub enum Record {
    Line(Instruction),
    Pair(u16, u16),
}

impl Record {
    // Its length in bytes.
    pub const SIZE: usize = 5;
}

// What a run or a play is given: a sheet, load answers, a table with the words of the special registers, and a limit on
// ticks or instructions.
#[derive(Clone, Copy, Debug)]
pub struct Inputs<'a> {
    pub sheet: &'a [u8],
    pub answers: &'a [u32],
    pub table: &'a [u32],
    pub limit: u32,
}

// How a run ends. Refused is one of the ends that RULES 18.2 lists, and is reported, printed and compared as one: so a
// refusal stands here, and not in a `Result` around an end. No run ends with Numbered: it is a refusal of which only the
// number is known, and is there to be reported.
#[derive(Clone, Copy, Debug, PartialEq, Eq)]
pub enum End {
    Halted,
    Spent,
    Refused(Refusal),
    Loads,
    Numbered(u32),
}
