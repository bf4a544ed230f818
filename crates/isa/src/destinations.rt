// The register that an instruction names as its destination.
ghost use Rattle.std.specs.Prelude.{◌≡◌};
ghost use Rattle.isa.specs.Operands.{ok_dest};

// Whether the destination, if there is one, is below 32.
#[tactic(auto, unfolding(crate::specs::Operands::ok_dest))]
pub fn is_dest_in_bounds(dest: Option<u8>) -> bool
    ensures { result ≡ ok_dest dest }
{
    dest.is_none_or(|r| r < 32)
}
