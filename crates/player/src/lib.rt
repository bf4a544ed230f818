// The plain player: the one-at-a-time machine over a sheet, load answers, a table of special registers and a limit on
// instructions.
//
// Wrong programs that the promise of `play` rules out. A name in brackets is the must-fail edit that tries one:
// spent before halted (spent_before_halted); loads before stopped (loads_before_stopped); HALT not counted
// (halt_not_counted); the stopping instruction done (stopping_one_done); an answer used twice (answer_used_twice);
// R0 as it was handed in (r0_kept); a refusal with R0 put to 0; an MFSR outside its table done.
#![tactic(auto)]

ghost use Rattle.std.specs.Prelude.{◌≡◌, cond, slice_index};
ghost use Rattle.player.specs.Inner.{stop_of, values_at};
ghost use Rattle.player.specs.Player.{played, unrefused_play};

mod slots;
mod step;

use crate::slots::{SLOTS, slot_in};
use crate::step::{is_barred, next, write};
use isa::{Decoded, Effect, Place, Start};
use refusal::Refusal;
use sheet::Inputs;
use sheet::answers::{answer_at, used_after};
use sheet::check::check_limited;

// How a play ends. Refused is one of these as it is one of a run's; RULES 23.2 has one end more than 18.2, stopped, so
// this list is apart from `sheet::End`.
#[derive(Clone, Copy, Debug, PartialEq, Eq)]
pub enum PlayerEnd {
    Halted,
    Spent,
    Stopped,
    Loads,
    Refused(Refusal),
}

// What the player reports: the end, a start's values then, the instructions done and the load answers used.
#[derive(Clone, Copy)]
pub struct Played {
    pub end: PlayerEnd,
    pub values: Start,
    pub done: u32,
    pub used: usize,
}

impl Played {
    // The report of a play that ends with these values and counts.
    fn new(end: PlayerEnd, values: Start, done: u32, used: usize) -> Played
        ensures { result ≡ record { end = end; values = values; done = done; used = used } }
    {
        Played {
            end,
            values,
            done,
            used,
        }
    }
}

// The instruction of a place, decoded, with its sources and destination, and whether it loads. Of its operands a play
// reads no more than these; with all of `Operands` a slot is larger, and a play of one HALT, which has 512 to set up, takes
// some 800 ns and not 500.
#[derive(Clone, Copy)]
pub struct Slot {
    pub at: Place,
    pub instr: Decoded,
    pub src_a: u8,
    pub src_b: u8,
    pub dest: Option<u8>,
    pub is_load: bool,
}

// How a play ends at an instruction that stops it: a barred one, or a load with no answer left (`dry`). None: it is
// done.
#[tactic(auto, unfolding(crate::specs::Inner::stop_of))]
fn stop_of(e: Effect, loads: bool, dry: bool) -> Option<PlayerEnd>
    ensures { result ≡ stop_of e loads dry }
{
    if is_barred(e) {
        return Some(PlayerEnd::Stopped);
    }
    (loads && dry).then_some(PlayerEnd::Loads)
}

// The word that an instruction's destination gets: of a load, the next answer.
fn value_of(loads: bool, e: Effect, answers: &[u32], used: usize) -> u32
    ensures { result ≡ cond loads (slice_index answers.now used) e.alu.value }
{
    if loads {
        answer_at(answers, used)
    } else {
        e.alu.value
    }
}

// A start's values, with these registers, address and mode.
#[tactic(auto, unfolding(crate::specs::Inner::values_at))]
fn values_at(start: Start, reg: [u32; 32], at: Place) -> Start
    ensures { result ≡ values_at start reg at }
{
    Start { reg, at, ..start }
}

// The turns of a play that was not refused before its first.
fn turns(start: Start, inputs: Inputs<'_>) -> Played
    ensures { let given = inputs.entry in
        result ≡ unrefused_play start given.sheet.now given.answers.now given.table.now given.limit }
{
    let Inputs {
        sheet,
        answers,
        table,
        limit,
    } = inputs;
    let mut reg = start.reg;
    reg[0] = 0;
    let mut at = start.at;
    let mut slots = [Slot::at(sheet, at); SLOTS];
    // The count is kept, and not the answers left, since the report has it.
    let mut used: usize = 0;
    for done in 0..limit {
        let s = slot_in(&mut slots, sheet, at);
        let e = s.effect(start.user, table, &reg);
        if let Some(end) = stop_of(e, s.is_load, answers.len() <= used) {
            return Played::new(end, values_at(start, reg, at), done, used);
        }
        let value = value_of(s.is_load, e, answers, used);
        write(e, s.dest, value, start.features, &mut reg);
        used = used_after(s.is_load, used, answers.len());
        at = next(e, at);
        if e.marks.halt {
            let values = values_at(start, reg, at);
            return Played::new(PlayerEnd::Halted, values, done + 1, used);
        }
    }
    Played::new(PlayerEnd::Spent, values_at(start, reg, at), limit, used)
}

// Plays a sheet from a start's values to its end.
#[tactic(auto, unfolding(crate::specs::Player::played, crate::specs::Player::checked_play, crate::specs::Player::refused_play))]
pub fn play(start: Start, inputs: Inputs<'_>) -> Played
    ensures { let given = inputs.entry in
        result ≡ played start given.sheet.now given.answers.now given.table.now given.limit }
{
    match check_limited(inputs.sheet, inputs.limit) {
        Ok(()) => turns(start, inputs),
        Err(e) => Played::new(PlayerEnd::Refused(e), start, 0, 0),
    }
}
