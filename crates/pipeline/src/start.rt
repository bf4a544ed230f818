// Start.
ghost use Rattle.std.specs.Prelude.{◌≡◌};
ghost use Rattle.pipeline.specs.Start.{fresh};

use crate::PipelineCpu;
use isa::Start;
use latch::{ExMem, IdEx, IfId, MemWb};
use stages::{Counters, Stages};

impl PipelineCpu {
    // The state that a program starts in: R0 becomes 0, latches are empty, no wait, running, counters 0.
    #[tactic(auto, unfolding(crate::specs::Start::fresh))]
    pub fn start(v: Start) -> PipelineCpu
        ensures { result ≡ fresh v }
    {
        let mut reg = v.reg;
        reg[0] = 0;
        PipelineCpu {
            reg,
            stages: Stages {
                fetch_at: v.at,
                retire_at: v.at,
                running: true,
                user: v.user,
                features: v.features,
                if_id: IfId::invalid(),
                id_ex: IdEx::invalid(),
                ex_mem: ExMem::invalid(),
                mem_wb: MemWb::invalid(),
                ex_cycles_left: 0,
                ex_armed: false,
                wait_left: 0,
            },
            counts: Counters::default(),
        }
    }
}
