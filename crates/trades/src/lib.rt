// Which neighbouring records of a sheet may trade places: two instructions that only compute, neither of which writes a
// register that the other names.
//
// Wrong programs that the promise of `places` rules out; a name in brackets is the must-fail edit that tries one: the
// destinations not compared (destinations_not_compared); R0 as a conflict (r0_as_a_conflict); a place twice
// (a_place_twice); the entry behind the count written (entry_behind_written); 15 for a list of exactly enough
// (enough_refused); 15 before 5; LD let through; the last pair left out. LDIL and LDIH without their source would list
// the same places, since it is their destination too; the table that names it is isa's (ldil_without_source there).
#![tactic(auto)]

ghost use Rattle.std.specs.Prelude.{◌≤◌, ◌≡◌, length};
ghost use Rattle.trades.specs.Trades.{laid, may_move, may_trade, movable, places_count, places_from, places_list};
ghost use Rattle.trades.specs.Trades.{pairs, places_check, touches};

use isa::{Instruction, Mode, Operands, Place};
use refusal::Refusal;
use sheet::Record;
use sheet::check::check;
use sheet::offer::offer_at;

// A record's command is NOP, 10 to 1F, ADDI, LDIL or LDIH.
#[tactic(auto, unfolding(crate::specs::Trades::may_move, sheet::specs::Records::within))]
fn may_move(command: Option<u8>) -> bool
    ensures { result ≡ may_move command }
{
    matches!(command, Some(0x00 | 0x10..=0x1F | 0x20 | 0x30..=0x31))
}

// What the instruction of record k names, where its command is one of these.
#[tactic(auto, unfolding(crate::specs::Trades::movable))]
fn movable(sheet: &[u8], k: u16) -> Option<Operands>
    ensures { result ≡ movable sheet.now k }
{
    let command = sheet.get(usize::from(k) * Record::SIZE).copied();
    if !may_move(command) {
        return None;
    }
    let at = Place {
        pc: u32::from(k) * Instruction::SIZE,
        mode: Mode::Normal,
    };
    Some(offer_at(sheet, at).decoded().operands())
}

// A destination other than R0 that is a source or the destination of the other.
#[tactic(auto, unfolding(crate::specs::Trades::touches, isa::specs::Registers::is_dest))]
fn touches(dest: Option<u8>, other: Operands) -> bool
    ensures { result ≡ touches dest other }
{
    let Some(d) = dest else {
        return false;
    };
    d != 0 && (d == other.src_a || d == other.src_b || other.dest == Some(d))
}

// Two that may trade places: neither one's destination touches the other.
#[tactic(auto, unfolding(crate::specs::Trades::may_trade))]
fn may_trade(one: Option<Operands>, next: Option<Operands>) -> bool
    ensures { result ≡ may_trade one next }
{
    match (one, next) {
        (Some(one), Some(next)) => !(touches(one.dest, next) || touches(next.dest, one)),
        _ => false,
    }
}

// How many neighbouring pairs a sheet has: one less than records.
#[tactic(auto, unfolding(crate::specs::Trades::pairs))]
fn pairs(sheet: &[u8]) -> usize
    ensures { result ≡ pairs sheet.now }
{
    (sheet.len() / Record::SIZE).saturating_sub(1)
}

// The check of a sheet and of a list with so many entries.
#[tactic(auto, unfolding(crate::specs::Trades::places_check))]
fn check_places(sheet: &[u8], entries: usize) -> Result<(), Refusal>
    ensures { result ≡ places_check sheet.now entries }
{
    check(sheet)?;
    if entries < pairs(sheet) {
        return Err(Refusal::ShortList);
    }
    Ok(())
}

// Writes those of the first so many places whose records may trade, in rising order, to the front of the list; how many
// they are. A record is looked at once.
fn put(sheet: &[u8], pairs: u16, list: &mut [u16]) -> usize
    requires { pairs ≤ length list.old }
    ensures count { result ≡ length (places_from sheet.now 0 pairs) }
    ensures list { list.new ≡ laid (places_from sheet.now 0 pairs) list.old }
{
    let mut count = 0;
    let mut one = movable(sheet, 0);
    for k in 0..pairs {
        let next = movable(sheet, k + 1);
        if may_trade(one, next) {
            list[count] = k;
            count += 1;
        }
        one = next;
    }
    count
}

// Lists the places k of a sheet whose records k and k + 1 may trade places, in rising order from the list's first entry
// on; how many they are. The list has to have an entry for each neighbouring pair, so 4,095 are always enough, and what
// `as` cuts is no more.
pub fn places(sheet: &[u8], list: &mut [u16]) -> Result<usize, Refusal>
    ensures count { result ≡ places_count sheet.now list.old }
    ensures list { list.new ≡ places_list sheet.now list.old }
{
    check_places(sheet, list.len())?;
    Ok(put(sheet, pairs(sheet) as u16, list))
}
