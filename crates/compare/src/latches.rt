// The four latches.
use crate::line::{Line, ToNumbers};
use crate::numbers::{FromNumbers, Malformed, Numbers};
use latch::{ExMem, IdEx, IfId, MemWb};

impl FromNumbers for IfId {
    fn from_numbers(numbers: &mut Numbers<'_>) -> Result<IfId, Malformed> {
        Ok(IfId {
            valid: numbers.read()?,
            pc: numbers.read()?,
            mode: numbers.read()?,
            raw: numbers.read()?,
        })
    }
}

impl ToNumbers for IfId {
    fn to_numbers(self, line: &mut Line, at: usize) -> usize {
        let at = line.write(at, (self.valid, self.pc, self.mode));
        line.write(at, self.raw)
    }
}

impl FromNumbers for IdEx {
    fn from_numbers(numbers: &mut Numbers<'_>) -> Result<IdEx, Malformed> {
        Ok(IdEx {
            valid: numbers.read()?,
            pc: numbers.read()?,
            mode: numbers.read()?,
            decoded: numbers.read()?,
            predicted_taken: numbers.read()?,
            src_a: numbers.read()?,
            src_b: numbers.read()?,
            n_srcs: numbers.read()?,
            dest: numbers.read()?,
            op_a: numbers.read()?,
            op_b: numbers.read()?,
            is_load: numbers.read()?,
            is_store: numbers.read()?,
            exception: numbers.read()?,
        })
    }
}

impl ToNumbers for IdEx {
    fn to_numbers(self, line: &mut Line, at: usize) -> usize {
        let at = line.write(at, (self.valid, self.pc, self.mode));
        let at = line.write(at, (self.decoded, self.predicted_taken));
        let at = line.write(at, (self.src_a, self.src_b, self.n_srcs));
        let at = line.write(at, (self.dest, self.op_a, self.op_b));
        line.write(at, (self.is_load, self.is_store, self.exception))
    }
}

impl FromNumbers for ExMem {
    fn from_numbers(numbers: &mut Numbers<'_>) -> Result<ExMem, Malformed> {
        Ok(ExMem {
            valid: numbers.read()?,
            pc: numbers.read()?,
            mode: numbers.read()?,
            decoded: numbers.read()?,
            dest: numbers.read()?,
            writeback: numbers.read()?,
            is_load: numbers.read()?,
            is_store: numbers.read()?,
            alu_result: numbers.read()?,
            store_value: numbers.read()?,
            mem_addr: numbers.read()?,
            mem_size: numbers.read()?,
            is_mem_read: numbers.read()?,
            branch_taken: numbers.read()?,
            branch_target: numbers.read()?,
            branch_new_mode: numbers.read()?,
            halt: numbers.read()?,
            iret: numbers.read()?,
            cpuid: numbers.read()?,
            exception: numbers.read()?,
            mtsr: numbers.read()?,
        })
    }
}

impl ToNumbers for ExMem {
    fn to_numbers(self, line: &mut Line, at: usize) -> usize {
        let at = line.write(at, (self.valid, self.pc, self.mode));
        let at = line.write(at, (self.decoded, self.dest));
        let at = line.write(at, (self.writeback, self.is_load, self.is_store));
        let at = line.write(at, (self.alu_result, self.store_value, self.mem_addr));
        let at = line.write(at, (self.mem_size, self.is_mem_read));
        let at = line.write(
            at,
            (self.branch_taken, self.branch_target, self.branch_new_mode),
        );
        let at = line.write(at, (self.halt, self.iret, self.cpuid));
        line.write(at, (self.exception, self.mtsr))
    }
}

impl FromNumbers for MemWb {
    fn from_numbers(numbers: &mut Numbers<'_>) -> Result<MemWb, Malformed> {
        Ok(MemWb {
            valid: numbers.read()?,
            pc: numbers.read()?,
            mode: numbers.read()?,
            dest: numbers.read()?,
            writeback: numbers.read()?,
            value: numbers.read()?,
            halt: numbers.read()?,
            iret: numbers.read()?,
            cpuid: numbers.read()?,
            branch_taken: numbers.read()?,
            branch_target: numbers.read()?,
            branch_new_mode: numbers.read()?,
            exception: numbers.read()?,
            mtsr: numbers.read()?,
        })
    }
}

impl ToNumbers for MemWb {
    fn to_numbers(self, line: &mut Line, at: usize) -> usize {
        let at = line.write(at, (self.valid, self.pc, self.mode));
        let at = line.write(at, (self.dest, self.writeback, self.value));
        let at = line.write(at, (self.halt, self.iret, self.cpuid));
        let at = line.write(
            at,
            (self.branch_taken, self.branch_target, self.branch_new_mode),
        );
        line.write(at, (self.exception, self.mtsr))
    }
}
