// The plan of a tick in which no wait goes on, once MEM/WB has retired.
ghost use Rattle.std.specs.Prelude.{◌≡◌};
ghost use Rattle.stages.specs.Inner.{held_plan, moved_plan, uses_load};
ghost use Rattle.stages.specs.Move.{begins_wait, waits_on};
ghost use Rattle.stages.specs.Plans.{plan_of};

use crate::execute::{
    executed_by, front_of, inquiry_by, is_slow, move_from, place_from, redirect_by,
};
use crate::{Front, Move, Plan, Stages};
use isa::Operands;
use latch::ExMem;
use latch::execute::effect_from;

impl Stages {
    // A wait in EX with more than one tick left.
    #[tactic(auto, unfolding(crate::specs::Move::waits_on))]
    pub fn waits_on(self) -> bool
        ensures { result ≡ waits_on self }
    {
        self.ex_armed & (1 < self.ex_cycles_left)
    }

    // The instruction in IF/ID, with these operands, uses the load in ID/EX.
    #[tactic(auto, unfolding(crate::specs::Inner::uses_load))]
    fn uses_load(self, o: Operands) -> bool
        ensures { result ≡ uses_load self o }
    {
        self.if_id.valid & self.id_ex.load_is_used(o.src_a, o.src_b)
    }

    // A multiply or divide begins its wait.
    #[tactic(auto, unfolding(crate::specs::Move::begins_wait))]
    fn begins_wait(self, used: bool) -> bool
        ensures { result ≡ begins_wait self used }
    {
        !self.ex_armed & !used & is_slow(self.id_ex)
    }

    // A wait begins: nothing leaves EX and nothing is fetched.
    #[tactic(auto, unfolding(crate::specs::Inner::held_plan))]
    fn held_plan(self, front: Front) -> Plan
        ensures { result ≡ held_plan self front }
    {
        Plan {
            step: Move::BeginWait,
            ex_mem: ExMem::invalid(),
            inquiry: None,
            front,
            place: self.fetch_at,
        }
    }

    // No wait: ID/EX executes.
    #[tactic(auto, unfolding(crate::specs::Inner::moved_plan, crate::specs::Execute::redirect_of, crate::specs::Execute::inquiry_of, crate::specs::Execute::effect_for))]
    fn moved_plan(self, used: bool, front: Front, reg: &[u32; 32]) -> Plan
        ensures { result ≡ moved_plan self reg.now used front }
    {
        let d = self.id_ex;
        let e = effect_from(self.user, self.ex_mem, self.mem_wb, self.features, reg, d);
        let step = move_from(used, redirect_by(d, e));
        Plan {
            step,
            ex_mem: executed_by(d, e),
            inquiry: inquiry_by(d, e),
            front,
            place: place_from(step, front.predicted, self.fetch_at),
        }
    }

    // The move, the next EX/MEM, the front and the place to fetch from.
    pub fn plan(self, reg: &[u32; 32]) -> Plan
        ensures { result ≡ plan_of self reg.now }
    {
        let front = front_of(self.if_id);
        let used = self.uses_load(front.operands);
        if self.begins_wait(used) {
            return self.held_plan(front);
        }
        self.moved_plan(used, front, reg)
    }
}
