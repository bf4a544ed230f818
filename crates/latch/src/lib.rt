// The four latches between the stages.
//
// Wrong programs that the promises rule out, for each function two. A name in brackets is the must-fail edit that
// tries one, in the code or in its definition:
// - IfId::invalid: a valid NOP; NOP in Short mode.
// - IdEx::invalid: a valid NOP; R0 for its destination.
// - ExMem::invalid: a valid NOP; a width of 4.
// - MemWb::invalid: a valid latch; R0 for its destination.
// - IfId::place: Normal for every mode (normal_for_every_mode); the address after it.
// - IfId::cleared: the contents reset too; the latch left valid.
// - IfId::decode: an invalid latch made of an invalid one; a branch with negative offset predicted taken.
// - IdEx::of: the word that stands in reg[0] sampled for R0; operand B 0 where fewer than two sources are named.
// - IdEx::load_is_used: a load to R0 waited for; the second source not compared.
// - mispredict: a redirect for a branch rightly predicted; none for a predicted branch that is not taken.
// - IdEx::effect: the instruction done although the latch holds an exception; HALT that halts in user mode.
// - IdEx::ex_mem: an exception that leaves `is_load` as it was; the destination kept where the effect writes nothing.
// - effect_from: operand A as it was sampled (operand_a_as_sampled);
//   operand A forwarded only where a source is named.
// - MemWb::forward: CPUID's words before the latch's own value; the value of an invalid latch.
// - ExMem::forward: the result of a load; the result of an invalid latch.
// - MemWb::holds: a register that the latch names but does not write back; R1 where it holds CPUID.
// - ExMem::holds: the destination of a load; the destination of an invalid latch.
// - operand: MEM/WB before EX/MEM (mem_wb_before_ex_mem); what a latch holds for R0.
// - bad_width: 0 left out; 3 let through.
// - IfId::out_of_bounds: an invalid latch let through; an unknown halfword stopped.
// - IdEx::out_of_bounds: an invalid latch let through; 3 sources let through.
// - ExMem::out_of_bounds: an invalid latch let through; a width of 3 let through.
// - MemWb::out_of_bounds: an invalid latch let through; a destination of 32 let through where nothing is written.
// - ExMem::loads: true for a width of 0; false for every invalid latch.
// - ExMem::stores: true for a width of 0; false for every invalid latch.
// - ExMem::mem_wb: a load's answer cut to its width; a store that writes back.
// - ExMem::request: a store's word not cut to its width; the request of an invalid latch.
// - MemWb::halts: the HALT of an invalid latch; no halt where an exception stands beside it.
// - MemWb::is_faulty: the exception of an invalid latch; IRET passed over.
// - MemWb::retired_pc: the next address for a taken branch; 4 added in Short mode.
// - MemWb::retired_mode: the mode of the instruction itself; the change that an invalid latch holds.
// - MemWb::write_back: a word left in R0; CPUID's words put over the destination's.
#![tactic(auto)]

pub mod bounds;
mod decode;
pub mod execute;
pub mod forwarding;
mod memory;
mod retire;

ghost use Rattle.std.specs.Prelude.{◌≡◌};
ghost use Rattle.latch.specs.Latches.{empty_ex_mem, empty_id_ex, empty_if_id, empty_mem_wb};

use isa::{Decoded, Exception, Mode, Mtsr, RawInstr};

// The flags of the latches (`valid`, `writeback`, `branch_taken`, a width of 0) are no options: a caller may hand in any
// value beside a flag that is off, and it is tested, kept and compared (RULES 8.5, 19.2). `pc` and `mode` are fields, and
// no `Place`, as in the Rust.

// Between fetch and decode.
#[derive(Clone, Copy, Default)]
pub struct IfId {
    pub valid: bool,
    pub pc: u32,
    pub mode: Mode,
    pub raw: RawInstr,
}

// Between decode and execute. `op_a` and `op_b` are the register values sampled at decode.
#[derive(Clone, Copy, Default)]
pub struct IdEx {
    pub valid: bool,
    pub pc: u32,
    pub mode: Mode,
    pub decoded: Decoded,
    pub predicted_taken: bool,
    pub src_a: u8,
    pub src_b: u8,
    pub n_srcs: u8,
    pub dest: Option<u8>,
    pub op_a: u32,
    pub op_b: u32,
    pub is_load: bool,
    pub is_store: bool,
    pub exception: Option<Exception>,
}

// Between execute and memory. `mem_size` is the width in bytes, 0 for no request.
#[derive(Clone, Copy, Default)]
pub struct ExMem {
    pub valid: bool,
    pub pc: u32,
    pub mode: Mode,
    pub decoded: Decoded,
    pub dest: Option<u8>,
    pub writeback: bool,
    pub is_load: bool,
    pub is_store: bool,
    pub alu_result: u32,
    pub store_value: u32,
    pub mem_addr: u32,
    pub mem_size: u8,
    pub is_mem_read: bool,
    pub branch_taken: bool,
    pub branch_target: u32,
    pub branch_new_mode: Option<Mode>,
    pub halt: bool,
    pub iret: bool,
    pub cpuid: bool,
    pub exception: Option<Exception>,
    pub mtsr: Option<Mtsr>,
}

// Between memory and retirement.
#[derive(Clone, Copy, Default)]
pub struct MemWb {
    pub valid: bool,
    pub pc: u32,
    pub mode: Mode,
    pub dest: Option<u8>,
    pub writeback: bool,
    pub value: u32,
    pub halt: bool,
    pub iret: bool,
    pub cpuid: bool,
    pub branch_taken: bool,
    pub branch_target: u32,
    pub branch_new_mode: Option<Mode>,
    pub exception: Option<Exception>,
    pub mtsr: Option<Mtsr>,
}

// Each type's empty latch has a name beside `default`: a latch that is not valid is what its callers mean (RULES 8.4).
impl IfId {
    // IF/ID at a start: invalid, with NOP at address 0 in Normal mode.
    #[tactic(auto, unfolding(crate::specs::Latches::empty_if_id))]
    pub fn invalid() -> IfId
        ensures { result ≡ empty_if_id }
    {
        IfId::default()
    }
}

impl IdEx {
    // The empty latch.
    #[tactic(auto, unfolding(crate::specs::Latches::empty_id_ex))]
    pub fn invalid() -> IdEx
        ensures { result ≡ empty_id_ex }
    {
        IdEx::default()
    }
}

impl ExMem {
    // The empty latch.
    #[tactic(auto, unfolding(crate::specs::Latches::empty_ex_mem))]
    pub fn invalid() -> ExMem
        ensures { result ≡ empty_ex_mem }
    {
        ExMem::default()
    }
}

impl MemWb {
    // The empty latch.
    #[tactic(auto, unfolding(crate::specs::Latches::empty_mem_wb))]
    pub fn invalid() -> MemWb
        ensures { result ≡ empty_mem_wb }
    {
        MemWb::default()
    }
}
