// Asking beforehand.
ghost use Rattle.std.specs.Prelude.{Ok, false, true, ◌≡◌};
ghost use Rattle.stages.specs.Advance.{awake};
ghost use Rattle.stages.specs.Counting.{counter_full};
ghost use Rattle.stages.specs.Move.{is_wait};
ghost use Rattle.pipeline.specs.Ask.{ask, origins_in, wanted};

use crate::{PipelineCpu, Wanted};
use origin::Origins;
use origin::choice::origins_of;
use refusal::Refusal;
use stages::{Move, Stages};

#[tactic(auto, unfolding(stages::specs::Move::is_wait))]
fn is_wait(step: Move) -> bool
    ensures { result ≡ is_wait step }
{
    matches!(step, Move::KeepWaiting | Move::BeginWait)
}

// The origins that the execution of a move passes on.
#[tactic(auto, unfolding(crate::specs::Ask::origins_in, stages::specs::Forwarding::origins_for))]
fn origins_in(step: Move, l: Stages) -> Option<Origins>
    ensures { result ≡ origins_in step l }
{
    if is_wait(step) | !l.id_ex.valid {
        return None;
    }
    Some(origins_of(l.ex_mem, l.mem_wb, l.id_ex))
}

impl PipelineCpu {
    // What a tick that moves will want. `moves` and `room` are no struct's, as in the tick.
    fn wants(self) -> Wanted
        requires moves { awake self.stages ≡ true }
        requires room { counter_full self.counts ≡ false }
        ensures { result ≡ wanted self }
    {
        let mut reg = self.reg;
        let s = self.stages.retire(&mut reg);
        if s.waits_on() {
            return Wanted {
                request: s.ex_mem.request(),
                ..Wanted::default()
            };
        }
        let plan = s.plan(&reg);
        Wanted {
            fetch: s.fetches(plan).then_some(plan.place),
            request: s.ex_mem.request(),
            special: plan.inquiry,
            origins: origins_in(plan.step, s),
        }
    }

    // The fetch, the request, the special register and the origins of the next tick, or refusal 11, 12 or 13.
    pub fn ask(self) -> Result<Wanted, Refusal>
        ensures { result ≡ ask self }
    {
        self.check()?;
        if self.stages.is_awake() {
            return Ok(self.wants());
        }
        Ok(Wanted::default())
    }
}
