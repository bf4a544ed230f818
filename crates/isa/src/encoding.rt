// The registers that a halfword names.
ghost use Rattle.std.specs.Prelude.{◌≡◌};
ghost use Rattle.isa.specs.Operands.{gpr};

// Register 15 of a halfword means R31, the others themselves.
#[tactic(auto, unfolding(crate::specs::Operands::gpr))]
pub fn short_reg_to_gpr(sr: u8) -> u8
    ensures { result ≡ gpr sr }
{
    if sr < 15 {
        return sr;
    }
    31
}
