// What is said of special registers.
ghost use Rattle.std.specs.Prelude.{◌≡◌};
ghost use Rattle.isa.specs.Inquiries.{fill, mfsr_with};

use crate::effect_table::{gives, raises};
use crate::{Effect, Exception};

// What MFSR does with what is said of the special register that it asks for: that there is no such register, or its
// word.
#[tactic(auto, unfolding(crate::specs::Inquiries::mfsr_with))]
pub fn mfsr_with(special: Option<Option<u32>>) -> Effect
    ensures { result ≡ mfsr_with special }
{
    match special.flatten() {
        Some(v) => gives(v),
        None => raises(Some(Exception::IllegalInstruction)),
    }
}

impl Effect {
    // The effect with what is said of the special register that it asks for.
    #[tactic(auto, unfolding(crate::specs::Inquiries::fill))]
    pub fn filled(self, special: Option<Option<u32>>) -> Effect
        ensures { result ≡ fill special self }
    {
        if self.inquiry.is_some() {
            return mfsr_with(special);
        }
        self
    }
}
