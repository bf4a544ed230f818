// The state, and what a start and a tick are given.
use crate::line::{Line, ToNumbers};
use crate::numbers::{FromNumbers, Malformed, Numbers};
use isa::{Place, Start};
use pipeline::{Given, PipelineCpu};
use stages::{Counters, Stages};

impl FromNumbers for Place {
    fn from_numbers(numbers: &mut Numbers<'_>) -> Result<Place, Malformed> {
        Ok(Place {
            pc: numbers.read()?,
            mode: numbers.read()?,
        })
    }
}

impl ToNumbers for Place {
    fn to_numbers(self, line: &mut Line, at: usize) -> usize {
        line.write(at, (self.pc, self.mode))
    }
}

impl FromNumbers for Start {
    fn from_numbers(numbers: &mut Numbers<'_>) -> Result<Start, Malformed> {
        Ok(Start {
            reg: numbers.read()?,
            at: numbers.read()?,
            user: numbers.read()?,
            features: numbers.read()?,
        })
    }
}

impl ToNumbers for Start {
    fn to_numbers(self, line: &mut Line, at: usize) -> usize {
        let reg = self.reg;
        let at = line.write(at, (reg, self.at));
        line.write(at, (self.user, self.features))
    }
}

impl FromNumbers for Stages {
    fn from_numbers(numbers: &mut Numbers<'_>) -> Result<Stages, Malformed> {
        Ok(Stages {
            fetch_at: numbers.read()?,
            retire_at: numbers.read()?,
            running: numbers.read()?,
            user: numbers.read()?,
            features: numbers.read()?,
            if_id: numbers.read()?,
            id_ex: numbers.read()?,
            ex_mem: numbers.read()?,
            mem_wb: numbers.read()?,
            ex_cycles_left: numbers.read()?,
            ex_armed: numbers.read()?,
            wait_left: numbers.read()?,
        })
    }
}

impl ToNumbers for Stages {
    fn to_numbers(self, line: &mut Line, at: usize) -> usize {
        let at = line.write(at, (self.fetch_at, self.retire_at));
        let at = line.write(at, (self.running, self.user, self.features));
        let at = line.write(at, (self.if_id, self.id_ex));
        let at = line.write(at, (self.ex_mem, self.mem_wb));
        line.write(at, (self.ex_cycles_left, self.ex_armed, self.wait_left))
    }
}

impl FromNumbers for Counters {
    fn from_numbers(numbers: &mut Numbers<'_>) -> Result<Counters, Malformed> {
        Ok(Counters {
            cycles: numbers.read()?,
            running_cycles: numbers.read()?,
            instructions_executed: numbers.read()?,
            stall_cycles: numbers.read()?,
            flush_events: numbers.read()?,
        })
    }
}

impl ToNumbers for Counters {
    fn to_numbers(self, line: &mut Line, at: usize) -> usize {
        let at = line.write(at, (self.cycles, self.running_cycles));
        let at = line.write(at, self.instructions_executed);
        line.write(at, (self.stall_cycles, self.flush_events))
    }
}

impl FromNumbers for PipelineCpu {
    fn from_numbers(numbers: &mut Numbers<'_>) -> Result<PipelineCpu, Malformed> {
        Ok(PipelineCpu {
            reg: numbers.read()?,
            stages: numbers.read()?,
            counts: numbers.read()?,
        })
    }
}

impl ToNumbers for PipelineCpu {
    fn to_numbers(self, line: &mut Line, at: usize) -> usize {
        let reg = self.reg;
        line.write(at, (reg, self.stages, self.counts))
    }
}

impl FromNumbers for Given {
    fn from_numbers(numbers: &mut Numbers<'_>) -> Result<Given, Malformed> {
        Ok(Given {
            offer: numbers.read()?,
            answer: numbers.read()?,
            special: numbers.read()?,
            fetch_wait: numbers.read()?,
            load_wait: numbers.read()?,
        })
    }
}
