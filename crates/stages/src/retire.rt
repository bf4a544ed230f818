// Retirement of MEM/WB, over lent registers.
ghost use Rattle.std.specs.Prelude.{◌≡◌};
ghost use Rattle.latch.specs.Retire.{retired_regs};
ghost use Rattle.stages.specs.Retire.{retire_stages};

use crate::Stages;
use isa::Place;
use latch::{ExMem, IdEx};

impl Stages {
    // The writes of MEM/WB and the retire place; HALT empties all younger latches and stops the machine.
    #[tactic(auto, unfolding(crate::specs::Retire::retire_stages))]
    pub fn retire(mut self, reg: &mut [u32; 32]) -> Stages
        ensures value { result ≡ retire_stages self }
        ensures reg_after { reg.new ≡ retired_regs self.mem_wb self.features reg.old }
    {
        let m = self.mem_wb;
        m.write_back(self.features, reg);
        self.fetch_at.mode = m.retired_mode(self.fetch_at.mode);
        self.retire_at = Place {
            pc: m.retired_pc(self.retire_at.pc),
            mode: m.retired_mode(self.retire_at.mode),
        };
        if m.halts() {
            self.running = false;
            self.if_id = self.if_id.cleared();
            self.id_ex = IdEx::invalid();
            self.ex_mem = ExMem::invalid();
            self.ex_cycles_left = 0;
            self.ex_armed = false;
        }
        self
    }
}
