// Whether every register that an instruction names is below 32, and the mode that an instruction is of.
ghost use Rattle.std.specs.Prelude.{◌≡◌};
ghost use Rattle.isa.specs.Operands.{ok_operands};
ghost use Rattle.isa.specs.Refusals.{is_of, ok_decoded, ok_instruction, ok_raw};

use crate::destinations::is_dest_in_bounds;
use crate::{Decoded, Instruction, Mode, Operands, RawInstr};

impl Operands {
    // Whether every register that is named is below 32.
    #[tactic(auto, unfolding(crate::specs::Operands::ok_operands))]
    pub fn in_bounds(self) -> bool
        ensures { result ≡ ok_operands self }
    {
        (self.src_a < 32) & (self.src_b < 32) & is_dest_in_bounds(self.dest)
    }
}

impl Instruction {
    // Whether its registers are below 32.
    #[tactic(auto, unfolding(crate::specs::Refusals::ok_instruction))]
    pub fn in_bounds(self) -> bool
        ensures { result ≡ ok_instruction self }
    {
        self.operands().in_bounds()
    }
}

impl RawInstr {
    // The same; the register numbers of a halfword are not tested.
    #[tactic(auto, unfolding(crate::specs::Refusals::ok_raw))]
    pub fn in_bounds(self) -> bool
        ensures { result ≡ ok_raw self }
    {
        match self {
            RawInstr::Normal(i) => i.in_bounds(),
            RawInstr::Short(_) => true,
        }
    }

    // Whether it is an instruction of a mode.
    #[tactic(auto, unfolding(crate::specs::Refusals::is_of))]
    pub fn is_of(self, mode: Mode) -> bool
        ensures { result ≡ is_of mode self }
    {
        match self {
            RawInstr::Normal(_) => mode == Mode::Normal,
            RawInstr::Short(_) => mode == Mode::Short,
        }
    }
}

impl Decoded {
    // The same; the register numbers of a Short instruction are not tested.
    #[tactic(auto, unfolding(crate::specs::Refusals::ok_decoded))]
    pub fn in_bounds(self) -> bool
        ensures { result ≡ ok_decoded self }
    {
        match self {
            Decoded::Normal(i) => i.in_bounds(),
            Decoded::Short(_) => true,
        }
    }
}
