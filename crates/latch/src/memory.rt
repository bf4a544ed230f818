// Memory: the request of EX/MEM and the latch that it makes.
ghost use Rattle.std.specs.Prelude.{◌≡◌};
ghost use Rattle.latch.specs.Memory.{loads, mem_wb_of, passed_on, request_in, requests, stores};

use crate::{ExMem, MemWb};
use isa::Request;

impl ExMem {
    // A load that asks for memory; a width of 0 asks for nothing.
    #[tactic(auto, unfolding(crate::specs::Memory::loads))]
    pub fn loads(self) -> bool
        ensures { result ≡ loads self }
    {
        self.is_load & (self.mem_size != 0)
    }

    // A store that asks for memory. One function for both, over the flag, would be no shorter.
    #[tactic(auto, unfolding(crate::specs::Memory::stores))]
    pub fn stores(self) -> bool
        ensures { result ≡ stores self }
    {
        self.is_store & (self.mem_size != 0)
    }

    // MEM/WB with this destination, write and value, the rest passed on.
    #[tactic(auto, unfolding(crate::specs::Memory::passed_on))]
    fn passed(self, dest: Option<u8>, writeback: bool, value: u32) -> MemWb
        ensures { result ≡ passed_on self dest writeback value }
    {
        MemWb {
            valid: true,
            pc: self.pc,
            mode: self.mode,
            dest,
            writeback,
            value,
            halt: self.halt,
            iret: self.iret,
            cpuid: self.cpuid,
            branch_taken: self.branch_taken,
            branch_target: self.branch_target,
            branch_new_mode: self.branch_new_mode,
            exception: self.exception,
            mtsr: self.mtsr,
        }
    }

    // The next MEM/WB; a load takes its answer whole. Most instructions ask for nothing.
    #[tactic(auto, unfolding(crate::specs::Memory::mem_wb_of, crate::specs::Memory::passed_on, crate::specs::Memory::loads, crate::specs::Memory::stores, crate::specs::Memory::dest_after, crate::specs::Memory::writes_after, crate::specs::Memory::value_after))]
    pub fn mem_wb(self, answer: u32) -> MemWb
        ensures { result ≡ mem_wb_of self answer }
    {
        if self.valid {
            if self.mem_size == 0 {
                return self.passed(self.dest, self.writeback, self.alu_result);
            }
            if self.is_load {
                return self.passed(self.dest, true, answer);
            }
            if self.is_store {
                return self.passed(None, false, 0);
            }
            return self.passed(self.dest, self.writeback, self.alu_result);
        }
        MemWb::invalid()
    }

    // The load or store that it asks for.
    #[tactic(auto, unfolding(crate::specs::Memory::requests, isa::specs::Machine::request_of, crate::specs::Memory::request_in))]
    pub fn request(self) -> Option<Request>
        ensures { result ≡ request_in (requests self) }
    {
        if self.valid {
            if self.loads() {
                return Some(Request::Load {
                    addr: self.mem_addr,
                    width: self.mem_size,
                });
            }
            if self.stores() {
                return Some(Request::Store {
                    addr: self.mem_addr,
                    width: self.mem_size,
                    word: word::cut(self.mem_size, self.store_value),
                });
            }
        }
        None
    }
}
