// What stands where no instruction does: NOP.
ghost use Rattle.std.specs.Prelude.{◌≡◌};
ghost use Rattle.isa.specs.Names.{DecNormal, Nop, RawNormal};

use crate::{Decoded, Instruction, RawInstr};

impl Default for RawInstr {
    ghost is_default = { λ r. r ≡ RawNormal Nop };

    fn default() -> RawInstr {
        RawInstr::Normal(Instruction::default())
    }
}

impl Default for Decoded {
    ghost is_default = { λ d. d ≡ DecNormal Nop };

    fn default() -> Decoded {
        Decoded::Normal(Instruction::default())
    }
}
