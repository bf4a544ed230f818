// The tick.
ghost use Rattle.std.specs.Prelude.{false, true, ◌≡◌};
ghost use Rattle.stages.specs.Advance.{awake};
ghost use Rattle.stages.specs.Counting.{counter_full};
ghost use Rattle.stages.specs.Move.{waits_on};
ghost use Rattle.pipeline.specs.Advance.{resting};
ghost use Rattle.pipeline.specs.Inner.{Retired, tick_on};
ghost use Rattle.pipeline.specs.Tick.{taken, tick, ticked};

use crate::{Given, PipelineCpu, Ticked};
use refusal::Refusal;
use stages::{Move, Stages, Taken};

impl Given {
    // What the tick takes in. A NOP stands for an instruction that is not offered, and 0 for an answer that is not
    // given; neither is looked at.
    #[tactic(auto, unfolding(crate::specs::Tick::taken, crate::specs::Tick::raw_of, crate::specs::Tick::wait_of, crate::specs::Tick::word_in))]
    fn taken(self) -> Taken
        ensures { result ≡ taken self }
    {
        Taken {
            answer: self.answer.unwrap_or_default(),
            raw: self.offer.unwrap_or_default(),
            special: self.special,
            wait: u32::from(self.fetch_wait) + u32::from(self.load_wait),
        }
    }
}

// `room` and `moves` stand in the contracts and in no struct of a checked state: with one `check` would promise two facts
// in place of an equation, and each caller would take it apart again.
impl PipelineCpu {
    // The state after a tick that moves nothing; a machine that does not run waits for the memory too.
    fn rest(self) -> PipelineCpu
        requires room { counter_full self.counts ≡ false }
        ensures { result ≡ resting self }
    {
        if self.stages.waits_for_memory() {
            return PipelineCpu {
                stages: self.stages.wait_for_memory(),
                counts: self.counts.count(false, Move::KeepWaiting),
                ..self
            };
        }
        PipelineCpu {
            counts: self.counts.idle(),
            ..self
        }
    }

    // A tick that moves nothing.
    fn tick_resting(self, t: Given) -> Result<PipelineCpu, Refusal>
        requires room { counter_full self.counts ≡ false }
        requires rests { awake self.stages ≡ false }
        ensures { result ≡ tick_on self t }
    {
        t.check(None, false, None)?;
        Ok(self.rest())
    }

    // A wait goes on in stages that retirement left.
    fn tick_waiting(self, s: Stages, reg: [u32; 32], t: Given) -> Result<PipelineCpu, Refusal>
        requires retired { Retired self s reg }
        requires waits { waits_on s ≡ true }
        ensures { result ≡ tick_on self t }
    {
        t.check(None, s.loads(), None)?;
        let stages = s.wait(t.taken());
        let counts = self.counts.count(s.mem_wb.valid, Move::KeepWaiting);
        Ok(PipelineCpu {
            reg,
            stages,
            counts,
        })
    }

    // No wait goes on: plan, test what is given, advance, count.
    fn tick_planned(self, s: Stages, reg: [u32; 32], t: Given) -> Result<PipelineCpu, Refusal>
        requires retired { Retired self s reg }
        requires free { waits_on s ≡ false }
        ensures { result ≡ tick_on self t }
    {
        let plan = s.plan(&reg);
        let fetch = s.fetches(plan).then_some(plan.place);
        t.check(fetch, s.loads(), plan.inquiry)?;
        let stages = s.advance(plan, t.taken(), &reg);
        let counts = self.counts.count(s.mem_wb.valid, plan.step);
        Ok(PipelineCpu {
            reg,
            stages,
            counts,
        })
    }

    // A tick that moves: retire; then a wait goes on, or the tick is planned.
    fn tick_awake(self, t: Given) -> Result<PipelineCpu, Refusal>
        requires room { counter_full self.counts ≡ false }
        requires moves { awake self.stages ≡ true }
        ensures { result ≡ tick_on self t }
    {
        let mut reg = self.reg;
        let s = self.stages.retire(&mut reg);
        if s.waits_on() {
            return self.tick_waiting(s, reg, t);
        }
        self.tick_planned(s, reg, t)
    }

    // The next state, or why the tick is refused.
    fn next(self, t: Given) -> Result<PipelineCpu, Refusal>
        ensures { result ≡ tick self t }
    {
        self.check()?;
        if self.stages.is_awake() {
            return self.tick_awake(t);
        }
        self.tick_resting(t)
    }

    // One tick; a refused tick hands back the state it was given.
    #[tactic(auto, unfolding(crate::specs::Tick::ticked))]
    pub fn tick(self, t: Given) -> Ticked
        ensures { result ≡ ticked self t }
    {
        self.handed_back(self.next(t))
    }
}
