// The counters.
ghost use Rattle.std.specs.Prelude.{◌≡◌};
ghost use Rattle.stages.specs.Counting.{count_idle, count_retired, counted, counter_full, flushes, stalls};
ghost use Rattle.stages.specs.Counting.{unless_full};
ghost use Rattle.stages.specs.Inner.{Tells, TellsAll};

use crate::{Counters, Move};

// A counter at its top.
#[tactic(auto, unfolding(crate::specs::Counting::is_full))]
fn at_top(n: u64) -> bool
    ensures { Tells n result }
{
    n == u64::MAX
}

impl Move {
    // The front end is held.
    #[tactic(auto, unfolding(crate::specs::Counting::stalls))]
    pub(crate) fn stalls(self) -> bool
        ensures { result ≡ stalls self }
    {
        match self {
            Move::KeepWaiting | Move::BeginWait | Move::LoadUseStall(_) => true,
            Move::Proceed | Move::Redirect(_) => false,
        }
    }

    // The two younger latches are emptied.
    #[tactic(auto, unfolding(crate::specs::Counting::flushes))]
    fn flushes(self) -> bool
        ensures { result ≡ flushes self }
    {
        match self {
            Move::LoadUseStall(way) => way.is_some(),
            Move::Redirect(_) => true,
            Move::KeepWaiting | Move::BeginWait | Move::Proceed => false,
        }
    }
}

impl Counters {
    // Whether a counter is at its top; if none is, there is room in each.
    fn full(self) -> bool
        ensures { TellsAll self result }
    {
        let late = at_top(self.stall_cycles) | at_top(self.flush_events);
        at_top(self.cycles)
            | (at_top(self.running_cycles) | (at_top(self.instructions_executed) | late))
    }

    // Refusal 13: a counter at its top.
    pub fn is_full(self) -> bool
        ensures { result ≡ counter_full self }
    {
        self.full()
    }

    // A machine that does not run. Here as in the next two, a full counter leaves all as they are; a function for
    // that, over a closure, would be longer than the three tests.
    #[tactic(auto, unfolding(crate::specs::Counting::unless_full, crate::specs::Counting::count_idle))]
    pub fn idle(mut self) -> Counters
        ensures { result ≡ unless_full self (count_idle self) }
    {
        if self.full() {
            return self;
        }
        self.cycles += 1;
        self
    }

    // MEM/WB has retired.
    #[tactic(auto, unfolding(crate::specs::Counting::unless_full, crate::specs::Counting::count_retired, word::specs::Words::bit))]
    pub fn retire(mut self, valid: bool) -> Counters
        ensures { result ≡ unless_full self (count_retired valid self) }
    {
        if self.full() {
            return self;
        }
        self.instructions_executed += u64::from(valid);
        self
    }

    // A tick that moves.
    #[tactic(auto, unfolding(crate::specs::Counting::unless_full, crate::specs::Counting::counted, crate::specs::Counting::count_retired, word::specs::Words::bit))]
    pub fn count(mut self, valid: bool, step: Move) -> Counters
        ensures { result ≡ unless_full self (counted step (count_retired valid self)) }
    {
        if self.full() {
            return self;
        }
        self.cycles += 1;
        self.running_cycles += 1;
        self.instructions_executed += u64::from(valid);
        self.stall_cycles += u64::from(step.stalls());
        self.flush_events += u64::from(step.flushes());
        self
    }
}
