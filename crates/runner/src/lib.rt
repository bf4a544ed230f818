// The runner: a state, a sheet, load answers, a table of special registers and a tick limit in; the end, the ticks used
// and the state then out.
//
// Wrong programs that the promise of `run` rules out: ticks reported one off; a state after a late refusal that is not
// the one before the refused tick; 11 before 7; an answer used twice; a halted run reported as spent; the last turn told
// that the limit is not used up (limit_not_told); a special register looked up in an empty table; a wait for the memory
// ticked off where the machine does not run, or outside the limit.
#![tactic(auto)]

ghost use Rattle.std.specs.Prelude.{cond, false, true, ◌≡◌};
ghost use Rattle.std.specs.Option.{option_map_or};
ghost use Rattle.isa.specs.Machine.{first, is_empty};
ghost use Rattle.pipeline.specs.Advance.{next, waiting};
ghost use Rattle.pipeline.specs.Tick.{taken};
ghost use Rattle.pipeline.specs.Turn.{reply};
ghost use Rattle.runs.specs.Run.{left_after, play, ran, reported, run_check, turn_of};
ghost use Rattle.sheet.specs.Sheet.{offer_at, sheet_source};
ghost use Rattle.stages.specs.Advance.{awake, waits_for_memory};
ghost use Rattle.stages.specs.Counting.{counter_full};
ghost use Rattle.stages.specs.Loads.{want_load};
ghost use Rattle.runner.specs.Inner.{Ready, joined};
ghost use Rattle.runner.specs.Names.{Nop, RawNormal};

use isa::{Instruction, Place, RawInstr};
use pipeline::PipelineCpu;
use refusal::Refusal;
use runs::Ran;
use sheet::check::check_limited;
use sheet::offer::offer_at;
use sheet::specials::special_at;
use sheet::turns::turn_by;
use sheet::{End, Inputs};
use stages::{Move, Taken};

// The answer that a tick takes in, the first of those left where it loads, and those left behind it.
#[tactic(auto, unfolding(isa::specs::Machine::first, isa::specs::Machine::rest, runs::specs::Run::left_after))]
fn next_answer<'l>(state: &PipelineCpu, left: &'l [u32]) -> (u32, &'l [u32])
    ensures answer { result.0 ≡ cond (want_load state.now.stages) (first left.now) 0 }
    ensures left { result.1.now ≡ left_after state.now left.now }
{
    match left.split_first() {
        Some((answer, rest)) if state.stages.wants_load() => (*answer, rest),
        _ => (0, left),
    }
}

// What a sheet offers a fetch.
fn raw(sheet: &[u8], fetch: Option<Place>) -> RawInstr
    ensures { result ≡ option_map_or (λ at. offer_at sheet.now at.pc at.mode) fetch (RawNormal Nop) }
{
    fetch.map(|at| offer_at(sheet, at)).unwrap_or_default()
}

// A tick that is given what it asks for: by the sheet what it fetches, by the table a special register, and the first of
// the answers left. It gives those left behind it. `moves` and `room` are no struct's, as in pipeline's tick.
fn tick<'l>(
    state: &mut PipelineCpu,
    reg: &mut [u32; 32],
    inputs: Inputs<'_>,
    left: &'l [u32],
) -> &'l [u32]
    requires moves { awake state.old.stages ≡ true }
    requires room { counter_full state.old.counts ≡ false }
    ensures state { let given = inputs.entry in
        let before = joined reg.old state.old in
        joined reg.new state.new
        ≡ next before (taken (reply (sheet_source given.sheet.now given.table.now) (first left.now) before)) }
    ensures left { result.now ≡ left_after state.old left.now }
{
    let (answer, left) = next_answer(state, left);
    let s = state.stages.retire(reg);
    if s.waits_on() {
        state.stages = s.wait(Taken {
            answer,
            ..Taken::default()
        });
        state.counts = state.counts.count(s.mem_wb.valid, Move::KeepWaiting);
        return left;
    }
    let plan = s.plan(reg);
    let taken = Taken {
        answer,
        raw: raw(inputs.sheet, s.fetches(plan).then_some(plan.place)),
        special: special_at(inputs.table, plan.inquiry),
        wait: 0,
    };
    state.stages = s.advance(plan, taken, reg);
    state.counts = state.counts.count(s.mem_wb.valid, plan.step);
    left
}

// A tick of a wait for the memory.
#[tactic(auto, using(pipeline::proofs::Resting::waits_by))]
fn wait(state: &mut PipelineCpu)
    requires room { counter_full state.old.counts ≡ false }
    ensures { state.new ≡ waiting state.old }
{
    state.stages = state.stages.wait_for_memory();
    state.counts = state.counts.count(false, Move::KeepWaiting);
}

// How a turn ends the run, if it does; `spent` says whether the limit is used up.
#[tactic(auto, unfolding(runs::specs::Run::turn_of, isa::specs::Machine::is_empty))]
fn next_turn(state: &PipelineCpu, spent: bool, left: &[u32]) -> Option<End>
    ensures { result ≡ turn_of state.now.stages state.now.counts spent (is_empty left.now) }
{
    let s = state.stages;
    turn_by(
        s.running,
        spent,
        s.is_faulty(),
        state.counts.is_full(),
        s.wants_load() && left.is_empty(),
    )
}

// The turns of a run that was not refused before its first.
#[tactic(auto, using(crate::proofs::Loop::begins, runs::proofs::Turns::turn_moves, runs::proofs::Turns::turn_ticks))]
fn play(mut state: PipelineCpu, inputs: Inputs<'_>) -> Ran
    requires { Ready inputs.sheet.now state }
    ensures { let given = inputs.entry in
        result ≡ reported (play (sheet_source given.sheet.now given.table.now) given.limit given.answers.now state) }
{
    // The registers are held apart from the state: left in it they make a tick half as long again.
    let mut reg = state.reg;
    let mut left = inputs.answers;
    for ticks in 0..inputs.limit {
        if let Some(end) = next_turn(&state, false, left) {
            state.reg = reg;
            return Ran { end, ticks, state };
        }
        if state.stages.waits_for_memory() {
            wait(&mut state);
        } else {
            left = tick(&mut state, &mut reg, inputs, left);
        }
    }
    state.reg = reg;
    // A turn with the limit used up ends the run.
    let end = next_turn(&state, true, left).unwrap_or(End::Spent);
    Ran {
        end,
        ticks: inputs.limit,
        state,
    }
}

// The check before the first turn: 6, per record 5, 1; then 7 and 11.
#[tactic(auto, unfolding(runs::specs::Run::run_check))]
fn check(state: PipelineCpu, sheet: &[u8], limit: u32) -> Result<(), Refusal>
    ensures { result ≡ run_check state sheet.now limit }
{
    check_limited(sheet, limit)?;
    if state.stages.out_of_bounds() {
        return Err(Refusal::OutOfBounds);
    }
    Ok(())
}

// Runs a sheet from a state to its end.
#[tactic(auto, using(crate::proofs::Loop::ready), unfolding(runs::specs::Run::ran, runs::specs::Run::checked_run))]
pub fn run(state: PipelineCpu, inputs: Inputs<'_>) -> Ran
    ensures { let given = inputs.entry in
        result ≡ ran state given.sheet.now given.answers.now given.table.now given.limit }
{
    if let Err(refusal) = check(state, inputs.sheet, inputs.limit) {
        return Ran::refused(refusal, state);
    }
    play(state, inputs)
}
