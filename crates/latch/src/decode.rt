// Decode, and the hazard behind a load.
ghost use Rattle.std.specs.Prelude.{◌≡◌};
ghost use Rattle.isa.specs.Waits.{is_used};
ghost use Rattle.latch.specs.Decode.{decode_id, id_ex_by, load_use};
ghost use Rattle.latch.specs.Latches.{cleared, place_of};

use crate::{IdEx, IfId};
use isa::registers::read_reg;
use isa::{Decoded, Operands, Place};

// A destination other than R0 that is one of two sources; where none is named, no wait arises.
#[tactic(auto, unfolding(isa::specs::Waits::is_used))]
fn is_used(dest: Option<u8>, a: u8, b: u8) -> bool
    ensures { result ≡ is_used dest a b }
{
    dest.is_some_and(|d| (d != 0) & ((d == a) | (d == b)))
}

impl IfId {
    // IF/ID emptied: invalid, with its contents kept.
    #[tactic(auto, unfolding(crate::specs::Latches::cleared))]
    pub fn cleared(self) -> IfId
        ensures { result ≡ cleared self }
    {
        IfId {
            valid: false,
            ..self
        }
    }

    // Where what it holds was fetched from.
    #[tactic(auto, unfolding(crate::specs::Latches::place_of))]
    pub fn place(self) -> Place
        ensures { result ≡ place_of self }
    {
        Place {
            pc: self.pc,
            mode: self.mode,
        }
    }

    // What IF/ID holds, decoded; it predicts nothing.
    #[tactic(auto, unfolding(crate::specs::Decode::decode_id, crate::specs::Decode::id_ex_of, crate::specs::Latches::place_of))]
    pub fn decode(self, reg: &[u32; 32]) -> IdEx
        ensures { result ≡ decode_id self reg.now }
    {
        let d = self.raw.decoded();
        IdEx::of(false, d, d.operands(), self.place(), reg)
    }
}

impl IdEx {
    // The latch of an instruction with operands `o`, sampled from the registers.
    #[tactic(auto, unfolding(crate::specs::Decode::id_ex_by))]
    pub fn of(predicted: bool, d: Decoded, o: Operands, at: Place, reg: &[u32; 32]) -> IdEx
        ensures { result ≡ id_ex_by predicted d o at.pc at.mode reg.now }
    {
        IdEx {
            valid: true,
            pc: at.pc,
            mode: at.mode,
            decoded: d,
            predicted_taken: predicted,
            src_a: o.src_a,
            src_b: o.src_b,
            n_srcs: o.n_srcs,
            dest: o.dest,
            op_a: read_reg(reg, o.src_a),
            op_b: read_reg(reg, o.src_b),
            is_load: o.is_load,
            is_store: o.is_store,
            exception: None,
        }
    }

    // A valid load whose destination, other than R0, is one of the two sources.
    #[tactic(auto, unfolding(crate::specs::Decode::load_use))]
    pub fn load_is_used(self, a: u8, b: u8) -> bool
        ensures { result ≡ load_use self a b }
    {
        self.valid & self.is_load & is_used(self.dest, a, b)
    }
}
