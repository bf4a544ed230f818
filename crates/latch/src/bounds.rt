// Refusal 11: the bounds of each latch, valid or not.
ghost use Rattle.std.specs.Prelude.{◌≡◌};
ghost use Rattle.latch.specs.Bounds.{bad_ex_mem, bad_id_ex, bad_if_id, bad_mem_wb, bad_width};

use crate::{ExMem, IdEx, IfId, MemWb};
use isa::destinations::is_dest_in_bounds;

// A width other than 0, 1, 2, 4.
#[tactic(auto, unfolding(crate::specs::Bounds::bad_width))]
pub fn bad_width(w: u8) -> bool
    ensures { result ≡ bad_width w }
{
    !matches!(w, 0 | 1 | 2 | 4)
}

impl IfId {
    // An instruction that is refused.
    #[tactic(auto, unfolding(crate::specs::Bounds::bad_if_id))]
    pub fn out_of_bounds(self) -> bool
        ensures { result ≡ bad_if_id self }
    {
        !self.raw.in_bounds()
    }
}

impl IdEx {
    // An instruction that is refused, a register above 31, or more than two sources.
    #[tactic(auto, unfolding(crate::specs::Bounds::bad_id_ex))]
    pub fn out_of_bounds(self) -> bool
        ensures { result ≡ bad_id_ex self }
    {
        let sources = (31 < self.src_a) | (31 < self.src_b) | (2 < self.n_srcs);
        !self.decoded.in_bounds() | !is_dest_in_bounds(self.dest) | sources
    }
}

impl ExMem {
    // An instruction that is refused, a destination above 31, or no such width.
    #[tactic(auto, unfolding(crate::specs::Bounds::bad_ex_mem))]
    pub fn out_of_bounds(self) -> bool
        ensures { result ≡ bad_ex_mem self }
    {
        !self.decoded.in_bounds() | !is_dest_in_bounds(self.dest) | bad_width(self.mem_size)
    }
}

impl MemWb {
    // A destination above 31.
    #[tactic(auto, unfolding(crate::specs::Bounds::bad_mem_wb))]
    pub fn out_of_bounds(self) -> bool
        ensures { result ≡ bad_mem_wb self }
    {
        !is_dest_in_bounds(self.dest)
    }
}
