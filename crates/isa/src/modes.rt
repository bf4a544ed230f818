// How long an instruction is, and where the next one stands.
ghost use Rattle.std.specs.Prelude.{◌≡◌};
ghost use Rattle.isa.specs.Effect.{after, fall, size};

use crate::{Instruction, Mode, Place, ShortInstruction};

impl Mode {
    // The size of an instruction in bytes.
    #[tactic(auto, unfolding(crate::specs::Effect::size))]
    pub fn size(self) -> u32
        ensures { result ≡ size self }
    {
        match self {
            Mode::Normal => Instruction::SIZE,
            Mode::Short => ShortInstruction::SIZE,
        }
    }

    // The address after the instruction at `pc`.
    #[tactic(auto, unfolding(crate::specs::Effect::fall))]
    pub fn fall(self, pc: u32) -> u32
        ensures { result ≡ fall pc self }
    {
        word::add(pc, self.size())
    }
}

impl Place {
    // The place of the next instruction, in the same mode.
    #[tactic(auto, unfolding(crate::specs::Effect::after))]
    pub fn after(self) -> Place
        ensures { result ≡ after self }
    {
        Place {
            pc: self.mode.fall(self.pc),
            ..self
        }
    }
}
