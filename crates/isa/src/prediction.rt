// The prediction: a conditional branch with negative offset is taken, no other.
ghost use Rattle.std.specs.Prelude.{◌≡◌};
ghost use Rattle.isa.specs.Waits.{is_negative, predict_by};

use crate::{Operands, Place};

// A word whose top bit is set.
#[tactic(auto, unfolding(crate::specs::Waits::is_negative))]
fn is_negative(w: u32) -> bool
    ensures { result ≡ is_negative w }
{
    w.cast_signed().is_negative()
}

impl Operands {
    // The prediction for an instruction with these operands.
    #[tactic(auto, unfolding(crate::specs::Waits::predict_by, crate::specs::Waits::back_to, crate::specs::Effect::after))]
    pub fn predict(self, at: Place) -> Option<Place>
        ensures { result ≡ predict_by self at.pc at.mode }
    {
        let offset = self.branch?;
        is_negative(offset).then_some(Place {
            pc: word::add(at.after().pc, offset),
            ..at
        })
    }
}
