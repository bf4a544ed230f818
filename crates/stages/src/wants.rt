// Whether a tick fetches, and whether it loads.
ghost use Rattle.std.specs.Prelude.{◌≡◌};
ghost use Rattle.stages.specs.Fetch.{fetches};
ghost use Rattle.stages.specs.Loads.{loads_in, want_load};
ghost use Rattle.stages.specs.Plans.{plan_fetches};

use crate::{Move, Plan, Stages};

impl Move {
    // A move that does not hold the front end fetches, a redirect too.
    #[tactic(auto, unfolding(crate::specs::Fetch::fetches))]
    fn fetches(self) -> bool
        ensures { result ≡ fetches self }
    {
        !self.stalls()
    }
}

impl Stages {
    // Whether this plan fetches; a machine that has halted does not.
    #[tactic(auto, unfolding(crate::specs::Plans::plan_fetches))]
    pub fn fetches(self, plan: Plan) -> bool
        ensures { result ≡ plan_fetches self plan }
    {
        self.running & plan.step.fetches()
    }

    // Whether EX/MEM asks for a load.
    #[tactic(auto, unfolding(crate::specs::Loads::loads_in))]
    pub fn loads(self) -> bool
        ensures { result ≡ loads_in self }
    {
        self.ex_mem.valid & self.ex_mem.loads()
    }

    // Whether a tick will load: a HALT in MEM/WB empties EX/MEM first.
    pub fn wants_load(self) -> bool
        ensures { result ≡ want_load self }
    {
        self.is_awake() & !self.mem_wb.halts() & self.loads()
    }
}
