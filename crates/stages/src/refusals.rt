// Refusals 11 and 12 of the stages.
ghost use Rattle.std.specs.Prelude.{◌≡◌};
ghost use Rattle.stages.specs.Advance.{awake, waits_for_memory};
ghost use Rattle.stages.specs.Refusals.{faulty, faulty_alone, out_of_bounds};

use crate::Stages;

impl Stages {
    // A latch out of its bounds, a wait above 15, or more than 2,000 ticks left of one for the memory.
    #[tactic(auto, unfolding(crate::specs::Refusals::out_of_bounds))]
    pub fn out_of_bounds(self) -> bool
        ensures { result ≡ out_of_bounds self }
    {
        self.if_id.out_of_bounds()
            | self.id_ex.out_of_bounds()
            | self.ex_mem.out_of_bounds()
            | self.mem_wb.out_of_bounds()
            | (15 < self.ex_cycles_left)
            | (2_000 < self.wait_left)
    }

    // Ticks are left of a wait for the memory.
    #[tactic(auto, unfolding(crate::specs::Advance::waits_for_memory))]
    pub fn waits_for_memory(self) -> bool
        ensures { result ≡ waits_for_memory self }
    {
        0 < self.wait_left
    }

    // Whether a tick moves anything: that of a running machine that does not wait for the memory.
    #[tactic(auto, unfolding(crate::specs::Advance::awake))]
    pub fn is_awake(self) -> bool
        ensures { result ≡ awake self }
    {
        self.running & !self.waits_for_memory()
    }

    // Running, and MEM/WB holds an exception, MTSR or IRET.
    #[tactic(auto, unfolding(crate::specs::Refusals::faulty_alone))]
    pub fn is_faulty_alone(self) -> bool
        ensures { result ≡ faulty_alone self }
    {
        self.running & self.mem_wb.is_faulty()
    }

    // The same, but not while a wait for the memory is left.
    #[tactic(auto, unfolding(crate::specs::Refusals::faulty))]
    pub fn is_faulty(self) -> bool
        ensures { result ≡ faulty self }
    {
        self.is_awake() & self.mem_wb.is_faulty()
    }
}
