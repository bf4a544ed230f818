// The ticks that an instruction waits in EX.
ghost use Rattle.std.specs.Prelude.{◌≡◌};
ghost use Rattle.isa.specs.Waits.{waits};

use crate::{Decoded, Instruction};

impl Decoded {
    // The ticks that it waits in EX: one less than its latency; no Short instruction does. The latency is not taken from
    // `operands()`: a tick that builds them takes a quarter more machine instructions.
    #[tactic(auto, unfolding(crate::specs::Waits::waits, crate::specs::Waits::wait_of, crate::specs::Operands::operands_of, crate::specs::Operands::operands_n, crate::specs::Operands::operands_s, crate::specs::Operands::plain, crate::specs::Operands::bare, crate::specs::Operands::writes, crate::specs::Operands::unary, crate::specs::Operands::binary, crate::specs::Operands::reads, crate::specs::Operands::loading, crate::specs::Operands::storing, crate::specs::Operands::branching))]
    pub fn waits(self) -> u32
        ensures { result ≡ waits self }
    {
        match self {
            Decoded::Normal(Instruction::Mul { .. } | Instruction::Mulh { .. }) => {
                u32::from(Instruction::MUL_LATENCY) - 1
            }
            Decoded::Normal(
                Instruction::Div { .. } | Instruction::Divu { .. } | Instruction::Mod { .. },
            ) => u32::from(Instruction::DIV_LATENCY) - 1,
            _ => 0,
        }
    }
}
