// The order of a run's turns.
ghost use Rattle.std.specs.Prelude.{◌≡◌};
ghost use Rattle.sheet.specs.Turns.{turn_by};

use crate::End;
use refusal::Refusal;

// How a turn ends the run, by five tests: running, limit used up, a faulty instruction, a counter at its top, a load
// wanted and no answer left. None: it is one more tick. RULES 18.2 and the definition tell the ends by these in this
// order; a struct of five flags would be named here, built by the runner alone and taken apart here: no plainer.
#[tactic(auto, unfolding(crate::specs::Turns::turn_by))]
pub fn turn_by(
    running: bool,
    spent: bool,
    faulty: bool,
    full: bool,
    unanswered: bool,
) -> Option<End>
    ensures { result ≡ turn_by running spent faulty full unanswered }
{
    if !running {
        return Some(End::Halted);
    }
    if spent {
        return Some(End::Spent);
    }
    if faulty {
        return Some(End::Refused(Refusal::Faulty));
    }
    if full {
        return Some(End::Refused(Refusal::CounterFull));
    }
    if unanswered {
        return Some(End::Loads);
    }
    None
}
