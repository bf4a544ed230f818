// Execute: the effect of ID/EX, the latch that it makes, and the redirect.
ghost use Rattle.std.specs.Prelude.{◌≡◌};
ghost use Rattle.latch.specs.Execute.{effect_from, effect_in, ex_mem_of, mispredict, operand_b};

use crate::forwarding::operand;
use crate::{ExMem, IdEx, MemWb};
use isa::effect_table::raises;
use isa::{Effect, Place};

// The redirect of a way that was predicted taken or not; `next`: the place behind the instruction.
#[tactic(auto, unfolding(crate::specs::Execute::mispredict))]
pub fn mispredict(predicted: bool, way: Option<Place>, next: Place) -> Option<Place>
    ensures { result ≡ mispredict predicted way next.pc next.mode }
{
    if !predicted {
        return way;
    }
    match way {
        None => Some(next),
        Some(_) => None,
    }
}

impl IdEx {
    // What the instruction does with two operand values; an exception already in the latch comes first.
    #[tactic(auto, unfolding(crate::specs::Execute::effect_in, crate::specs::Execute::raised_or))]
    pub fn effect(self, user: bool, a: u32, b: u32) -> Effect
        ensures { result ≡ effect_in user self a b }
    {
        match self.exception {
            Some(exception) => raises(Some(exception)),
            None => self.decoded.effect(user, self.pc, a, b),
        }
    }

    // The next EX/MEM.
    #[tactic(auto, unfolding(crate::specs::Execute::ex_mem_of, isa::specs::Machine::dest_of, isa::specs::Redirects::target_or))]
    pub fn ex_mem(self, e: Effect) -> ExMem
        ensures { result ≡ ex_mem_of self e }
    {
        let raised = e.marks.exception.is_some();
        ExMem {
            valid: true,
            pc: self.pc,
            mode: self.mode,
            decoded: self.decoded,
            dest: if e.alu.writes { self.dest } else { None },
            writeback: e.alu.always_writes | (e.alu.writes & self.dest.is_some()),
            is_load: self.is_load & !raised,
            is_store: self.is_store & !raised,
            alu_result: e.alu.value,
            store_value: e.access.store_value,
            mem_addr: e.access.mem_addr,
            mem_size: e.access.mem_size,
            is_mem_read: e.access.is_mem_read,
            branch_taken: e.redirect.is_some(),
            branch_target: e.redirect.map_or(0, |to| to.pc),
            branch_new_mode: e.branch_new_mode,
            halt: e.marks.halt,
            iret: e.marks.iret,
            cpuid: e.marks.cpuid,
            exception: e.marks.exception,
            mtsr: e.marks.mtsr,
        }
    }
}

// Operand B: forwarded where two sources are named, else as it was sampled. The latches come apart here and in
// `effect_from`, as in `operand`.
#[tactic(auto, unfolding(crate::specs::Execute::operand_b))]
fn operand_b(x: ExMem, w: MemWb, features: u32, reg: &[u32; 32], d: IdEx) -> u32
    ensures { result ≡ operand_b x w features reg.now d }
{
    if 1 < d.n_srcs {
        return operand(x, w, features, reg, d.src_b);
    }
    d.op_b
}

// The effect of ID/EX with its operands forwarded out of the latches.
#[tactic(auto, unfolding(crate::specs::Execute::effect_from))]
pub fn effect_from(
    user: bool,
    x: ExMem,
    w: MemWb,
    features: u32,
    reg: &[u32; 32],
    d: IdEx,
) -> Effect
    ensures { result ≡ effect_from user x w features reg.now d }
{
    let a = operand(x, w, features, reg, d.src_a);
    let b = operand_b(x, w, features, reg, d);
    d.effect(user, a, b)
}
