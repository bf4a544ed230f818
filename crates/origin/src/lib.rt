// Where a forwarded value comes from.
//
// Wrong programs that the promises rule out, for each function two. A name in brackets is the must-fail edit that
// tries one, in the code or in its definition:
// - origin_of: MEM/WB named before EX/MEM (mem_wb_named_first); a load in EX/MEM as origin (load_as_origin).
// - origins_of: a source that is not named shown as the zero register (unnamed_as_zero); operand B's origin shown where
//   the latch names one source.
#![tactic(auto)]

pub mod choice;

// The places that a value comes from.
#[derive(Clone, Copy)]
pub enum Origin {
    ZeroRegister,
    ExMem,
    ExMemCpuid,
    MemWb,
    MemWbCpuid,
    RegisterFile,
}

// The origins of operand A and operand B.
#[derive(Clone, Copy)]
pub struct Origins {
    pub a: Origin,
    pub b: Origin,
}
