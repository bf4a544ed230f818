// The start with zeros.
ghost use Rattle.std.specs.Prelude.{◌≡◌};
ghost use Rattle.isa.specs.Machine.{zero_start};

use crate::{Place, Start};

impl Start {
    // Registers, address and feature word 0, Normal, supervisor.
    #[tactic(auto, unfolding(crate::specs::Machine::zero_start))]
    pub fn zero() -> Start
        ensures { result ≡ zero_start }
    {
        Start {
            reg: [0u32; 32],
            at: Place::default(),
            user: false,
            features: 0,
        }
    }
}
