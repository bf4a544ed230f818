// The rest of a tick, by its plan.
ghost use Rattle.std.specs.Prelude.{cond, ◌≡◌};
ghost use Rattle.isa.specs.Effect.{fall};
ghost use Rattle.stages.specs.Advance.{advance_by, wait_for_memory};
ghost use Rattle.stages.specs.Fetch.{fetched};
ghost use Rattle.stages.specs.Inner.{move_on};
ghost use Rattle.stages.specs.Names.{begin_wait, keep_waiting, load_use_stall, proceed, redirect};
ghost use Rattle.stages.specs.Plans.{advance_plan, waited};

use crate::execute::id_ex_from;
use crate::{Move, Plan, Stages, Taken};
use isa::inquiries::mfsr_with;
use isa::{Place, RawInstr};
use latch::{ExMem, IdEx, IfId};

impl Stages {
    // The next IF/ID; a machine that has halted fetches nothing.
    #[tactic(auto, unfolding(crate::specs::Fetch::fetched))]
    fn fetch(self, place: Place, raw: RawInstr) -> IfId
        ensures { result ≡ fetched self.running self.if_id place raw }
    {
        if self.running {
            return IfId {
                valid: true,
                pc: place.pc,
                mode: place.mode,
                raw,
            };
        }
        self.if_id.cleared()
    }

    // A wait in EX goes on. Here and below EX/MEM so far is the plan's, and what is taken in the caller's: they come apart.
    #[tactic(auto, unfolding(crate::specs::Advance::advance_by, crate::specs::Advance::id_ex_after, crate::specs::Advance::if_id_after, crate::specs::Move::is_wait, crate::specs::Advance::wait_after, crate::specs::Advance::place_after))]
    fn keep_waiting(self, ex_mem: ExMem, taken: Taken) -> Stages
        ensures { result ≡ advance_by keep_waiting ex_mem self.id_ex self.fetch_at self taken }
    {
        Stages {
            mem_wb: self.ex_mem.mem_wb(taken.answer),
            ex_mem,
            ex_armed: true,
            ex_cycles_left: self.ex_cycles_left.saturating_sub(1),
            wait_left: taken.wait,
            ..self
        }
    }

    // The stages after a wait that goes on: nothing leaves EX and nothing is fetched.
    #[tactic(auto, unfolding(crate::specs::Plans::waited))]
    pub fn wait(self, taken: Taken) -> Stages
        ensures { result ≡ waited self taken }
    {
        self.keep_waiting(ExMem::invalid(), taken)
    }

    // A tick of a wait for the memory: nothing moves.
    #[tactic(auto, unfolding(crate::specs::Advance::wait_for_memory))]
    pub fn wait_for_memory(self) -> Stages
        ensures { result ≡ wait_for_memory self }
    {
        Stages {
            wait_left: self.wait_left.saturating_sub(1),
            ..self
        }
    }

    // A wait in EX begins. A function for this and the one before, over the ticks left, would need a definition of its own.
    #[tactic(auto, unfolding(crate::specs::Advance::advance_by, crate::specs::Advance::id_ex_after, crate::specs::Advance::if_id_after, crate::specs::Move::is_wait, crate::specs::Advance::wait_after, crate::specs::Advance::place_after))]
    fn begin_wait(self, ex_mem: ExMem, taken: Taken) -> Stages
        ensures { result ≡ advance_by begin_wait ex_mem self.id_ex self.fetch_at self taken }
    {
        Stages {
            mem_wb: self.ex_mem.mem_wb(taken.answer),
            ex_mem,
            ex_armed: true,
            ex_cycles_left: self.id_ex.decoded.waits(),
            wait_left: taken.wait,
            ..self
        }
    }

    // The place after it; a machine that has halted stays.
    #[tactic(auto, unfolding(isa::specs::Effect::after))]
    fn moved_on(self, place: Place) -> Place
        ensures { result ≡ record { pc = cond self.running (fall place.pc place.mode) place.pc; mode = place.mode } }
    {
        if self.running { place.after() } else { place }
    }

    // IF/ID is decoded and the place fetched from; a wait that was under way has ended.
    #[tactic(auto, unfolding(crate::specs::Advance::advance_by, crate::specs::Advance::id_ex_after, crate::specs::Advance::if_id_after, crate::specs::Move::is_wait, crate::specs::Advance::wait_after, crate::specs::Advance::place_after))]
    fn proceed(self, ex_mem: ExMem, id_ex: IdEx, place: Place, taken: Taken) -> Stages
        ensures { result ≡ advance_by proceed ex_mem id_ex place self taken }
    {
        Stages {
            mem_wb: self.ex_mem.mem_wb(taken.answer),
            fetch_at: self.moved_on(place),
            if_id: self.fetch(place, taken.raw),
            id_ex,
            ex_mem,
            ex_cycles_left: if self.ex_armed {
                0
            } else {
                self.ex_cycles_left
            },
            ex_armed: false,
            wait_left: taken.wait,
            ..self
        }
    }

    // The front end is held behind a used load; a redirect still takes effect.
    #[tactic(auto, unfolding(crate::specs::Advance::advance_by, crate::specs::Advance::id_ex_after, crate::specs::Advance::if_id_after, crate::specs::Move::is_wait, crate::specs::Advance::wait_after, crate::specs::Advance::place_after, crate::specs::Fetch::place_or, isa::specs::Redirects::target_or, isa::specs::Redirects::mode_or))]
    fn load_use_stall(self, way: Option<Place>, ex_mem: ExMem, taken: Taken) -> Stages
        ensures { result ≡ advance_by (load_use_stall way) ex_mem self.id_ex self.fetch_at self taken }
    {
        let next = self.proceed(ex_mem, IdEx::invalid(), self.fetch_at, taken);
        match way {
            Some(target) => Stages {
                fetch_at: target,
                if_id: self.if_id.cleared(),
                ..next
            },
            None => Stages {
                fetch_at: self.fetch_at,
                if_id: self.if_id,
                ..next
            },
        }
    }

    // What was decoded and what is fetched are both flushed.
    #[tactic(auto, unfolding(crate::specs::Advance::advance_by, crate::specs::Advance::id_ex_after, crate::specs::Advance::if_id_after, crate::specs::Move::is_wait, crate::specs::Advance::wait_after, crate::specs::Advance::place_after))]
    fn redirect(self, target: Place, ex_mem: ExMem, place: Place, taken: Taken) -> Stages
        ensures { result ≡ advance_by (redirect target) ex_mem self.id_ex place self taken }
    {
        let next = self.proceed(ex_mem, IdEx::invalid(), place, taken);
        Stages {
            fetch_at: target,
            if_id: next.if_id.cleared(),
            ..next
        }
    }

    // The stages after the move of a plan, with the next EX/MEM so far.
    #[tactic(auto, unfolding(crate::specs::Inner::move_on, crate::specs::Advance::advance_by, crate::specs::Advance::id_ex_after, crate::specs::Advance::if_id_after, crate::specs::Move::is_wait, crate::specs::Advance::wait_after, crate::specs::Advance::place_after))]
    fn move_on(self, plan: Plan, taken: Taken, reg: &[u32; 32]) -> Stages
        ensures { result ≡ move_on plan self reg.now taken }
    {
        match plan.step {
            Move::KeepWaiting => self.keep_waiting(plan.ex_mem, taken),
            Move::BeginWait => self.begin_wait(plan.ex_mem, taken),
            Move::LoadUseStall(way) => self.load_use_stall(way, plan.ex_mem, taken),
            Move::Proceed => {
                let id_ex = id_ex_from(self.if_id, plan.front, reg);
                self.proceed(plan.ex_mem, id_ex, plan.place, taken)
            }
            Move::Redirect(target) => self.redirect(target, plan.ex_mem, plan.place, taken),
        }
    }

    // The stages after the move of a plan.
    #[tactic(auto, unfolding(crate::specs::Plans::advance_plan, crate::specs::Plans::said_ex_mem, crate::specs::Inner::move_on, crate::specs::Advance::advance_by))]
    pub fn advance(self, plan: Plan, taken: Taken, reg: &[u32; 32]) -> Stages
        ensures { result ≡ advance_plan plan self reg.now taken }
    {
        let next = self.move_on(plan, taken, reg);
        if plan.inquiry.is_some() {
            return Stages {
                ex_mem: self.id_ex.ex_mem(mfsr_with(taken.special)),
                ..next
            };
        }
        next
    }
}
