// What the latches make of a tick: the front of IF/ID, the next EX/MEM, the redirect, the move.
ghost use Rattle.std.specs.Prelude.{None, cond, ◌≡◌};
ghost use Rattle.isa.specs.Waits.{predict_by};
ghost use Rattle.stages.specs.Execute.{executed_by, inquiry_by, redirect_by};
ghost use Rattle.stages.specs.Fetch.{fetch_from};
ghost use Rattle.stages.specs.Move.{is_slow, move_from};
ghost use Rattle.stages.specs.Plans.{front_of, id_ex_from};

use crate::{Front, Move};
use isa::{Effect, Operands, Place};
use latch::execute::mispredict;
use latch::{ExMem, IdEx, IfId};

// The next EX/MEM.
#[tactic(auto, unfolding(crate::specs::Execute::executed_by))]
pub(crate) fn executed_by(d: IdEx, e: Effect) -> ExMem
    ensures { result ≡ executed_by d e }
{
    if d.valid {
        return d.ex_mem(e);
    }
    ExMem::invalid()
}

// The redirect of this tick.
#[tactic(auto, unfolding(crate::specs::Execute::redirect_by, isa::specs::Effect::after))]
pub(crate) fn redirect_by(d: IdEx, e: Effect) -> Option<Place>
    ensures { result ≡ redirect_by d e }
{
    if d.valid {
        let at = Place {
            pc: d.pc,
            mode: d.mode,
        };
        return mispredict(d.predicted_taken, e.redirect, at.after());
    }
    None
}

// The special register that ID/EX asks for.
#[tactic(auto, unfolding(crate::specs::Execute::inquiry_by))]
pub(crate) fn inquiry_by(d: IdEx, e: Effect) -> Option<u16>
    ensures { result ≡ inquiry_by d e }
{
    if d.valid {
        return e.inquiry;
    }
    None
}

// A multiply or divide in ID/EX.
#[tactic(auto, unfolding(crate::specs::Move::is_slow))]
pub(crate) fn is_slow(d: IdEx) -> bool
    ensures { result ≡ is_slow d }
{
    d.valid & (0 < d.decoded.waits())
}

// IF/ID decoded, with its operands and the prediction.
#[tactic(auto, unfolding(crate::specs::Plans::front_of, crate::specs::Fetch::predicted, isa::specs::Waits::predict, latch::specs::Latches::place_of))]
pub(crate) fn front_of(f: IfId) -> Front
    ensures { result ≡ front_of f }
{
    let decoded = f.raw.decoded();
    let operands = decoded.operands();
    let predicted = if f.valid {
        operands.predict(f.place())
    } else {
        None
    };
    Front {
        decoded,
        operands,
        predicted,
    }
}

// The next ID/EX.
#[tactic(auto, unfolding(crate::specs::Plans::id_ex_from, latch::specs::Latches::place_of))]
pub(crate) fn id_ex_from(f: IfId, front: Front, reg: &[u32; 32]) -> IdEx
    ensures { result ≡ id_ex_from f front reg.now }
{
    if f.valid {
        return IdEx::of(
            front.predicted.is_some(),
            front.decoded,
            front.operands,
            f.place(),
            reg,
        );
    }
    IdEx::invalid()
}

// A used load first, then the redirect.
#[tactic(auto, unfolding(crate::specs::Move::move_from, crate::specs::Move::proceed_or))]
pub(crate) fn move_from(used: bool, way: Option<Place>) -> Move
    ensures { result ≡ move_from used way }
{
    if used {
        return Move::LoadUseStall(way);
    }
    match way {
        None => Move::Proceed,
        Some(target) => Move::Redirect(target),
    }
}

// The place that a move fetches from: predicted only where the tick does not redirect.
#[tactic(auto, unfolding(crate::specs::Fetch::fetch_from, crate::specs::Fetch::place_or))]
pub(crate) fn place_from(step: Move, predicted: Option<Place>, at: Place) -> Place
    ensures { result ≡ fetch_from step predicted at }
{
    match step {
        Move::Proceed => predicted.unwrap_or(at),
        Move::KeepWaiting | Move::BeginWait | Move::LoadUseStall(_) | Move::Redirect(_) => at,
    }
}
