// What a sheet offers a fetch.
ghost use Rattle.std.specs.Prelude.{◌≡◌};
ghost use Rattle.sheet.specs.Sheet.{offer_at, offer_in, record_at, unknown_of};

use crate::Record;
use crate::records::record_of;
use isa::{Instruction, Mode, Place, RawInstr};

// Record k of a sheet; none outside it. `as`, since the library has no `From` of 32 bits for `usize`.
#[tactic(auto, unfolding(crate::specs::Sheet::record_at))]
pub(crate) fn record_at(sheet: &[u8], k: u32) -> Option<Record>
    ensures { result ≡ record_at sheet.now k }
{
    let at = k as usize * Record::SIZE;
    let [c, a, b, d, e] = sheet.get(at..at + Record::SIZE)? else {
        return None;
    };
    record_of(*c, *a, *b, *d, *e)
}

// What stands for an instruction where there is none.
#[tactic(auto, unfolding(crate::specs::Sheet::unknown_of))]
fn unknown_of(mode: Mode) -> RawInstr
    ensures { result ≡ unknown_of mode }
{
    match mode {
        Mode::Normal => RawInstr::Normal(Instruction::Unknown(0, 0)),
        Mode::Short => RawInstr::Short(0xA000),
    }
}

// What a record offers at a byte of its four. A Normal instruction stands at the first; two halfwords stand at the
// first and the third.
#[tactic(auto, unfolding(crate::specs::Sheet::offer_in, crate::specs::Sheet::line_offer, crate::specs::Sheet::pair_offer))]
fn offer_in(r: Option<Record>, low: u32, mode: Mode) -> RawInstr
    ensures { result ≡ offer_in r low mode }
{
    match (r, mode, low) {
        (Some(Record::Line(i)), Mode::Normal, 0) => RawInstr::Normal(i),
        (Some(Record::Pair(h, _)), Mode::Short, 0) => RawInstr::Short(h),
        (Some(Record::Pair(_, g)), Mode::Short, 2) => RawInstr::Short(g),
        _ => unknown_of(mode),
    }
}

// What a sheet offers at a place.
#[tactic(auto, unfolding(crate::specs::Sheet::offer_at))]
pub fn offer_at(sheet: &[u8], at: Place) -> RawInstr
    ensures { result ≡ offer_at sheet.now at.pc at.mode }
{
    offer_in(record_at(sheet, at.pc / 4), at.pc % 4, at.mode)
}
