// The pipeline: its state, what a tick is given, what asking names, and how a tick ends.
//
// Wrong programs that the promises rule out, for each function two. A name in brackets is the must-fail edit that
// tries one, in the code or in its definition:
// - PipelineCpu::start: R0 as it was handed in; a retire place of 0.
// - PipelineCpu::ask: no fetch in a redirecting tick; 12 for a machine that does not run; a special register asked for
//   while a wait begins (asked_while_a_wait_begins of stages); origins shown while a wait begins
//   (origins_while_a_wait_begins); a fetch while a wait for the memory is left.
// - PipelineCpu::tick: EX/MEM kept at a HALT (halt_leaves_ex_mem of stages); 4 before 3 (refusal_4_before_3); 10 before
//   4 (refusal_10_before_4); 24 before 10 (refusal_24_before_10); a wait one tick longer; a wait of 1,001 accepted
//   (wait_of_1001); a tick of a wait for the memory that is no running tick (wait_not_a_running_tick), or that moves.
// - id_sources: the base of a store left out; 11 for an unknown halfword.
// - is_mul_div: the wait, 2 or 15, for the latency; a latency of 0 for any other instruction.
// - load_use_hazard: a source of 32 let through; a load to R0 waited for.
// - PipelineCpu::forwarded: 0 for register 32; 12 where MEM/WB holds an exception; the register file as origin of R0.
// - PipelineCpu::execute_ex: an empty EX/MEM for an invalid latch; no redirect where the branch was rightly predicted;
//   10 before 11; no origins for an invalid latch.
// - PipelineCpu::decode_id: an invalid latch made of an invalid one; a branch with negative offset predicted taken.
// - PipelineCpu::retire: MEM/WB emptied; 12 for a machine that does not run; none while a wait for the memory is left.
#![tactic(auto)]

mod ask;
pub mod parts;
mod refusals;
mod start;
mod tick;

use isa::{Place, RawInstr, Request};
use latch::ExMem;
use origin::{Origin, Origins};
use refusal::Refusal;
use stages::{Counters, Stages};

// The state: registers, stages, counters.
#[derive(Clone, Copy)]
pub struct PipelineCpu {
    pub reg: [u32; 32],
    pub stages: Stages,
    pub counts: Counters,
}

// What a tick is given: an instruction offered for a fetch, the answer to a load, what is said of a special register
// (that there is none, or its word), each where it is given; and how many ticks the fetch and the load make the pipeline
// wait.
#[derive(Clone, Copy)]
pub struct Given {
    pub offer: Option<RawInstr>,
    pub answer: Option<u32>,
    pub special: Option<Option<u32>>,
    pub fetch_wait: u16,
    pub load_wait: u16,
}

// The state handed back by a tick: the next one, or the very state given where the tick was refused. It is no `Result`,
// since a refused tick hands a state back too.
#[derive(Clone, Copy)]
pub struct Ticked {
    pub state: PipelineCpu,
    pub outcome: Result<(), Refusal>,
}

// What a tick will want: the place to fetch from, a load or store, a special register; and the origins that its
// execution will pass on.
#[derive(Clone, Copy, Default)]
pub struct Wanted {
    pub fetch: Option<Place>,
    pub request: Option<Request>,
    pub special: Option<u16>,
    pub origins: Option<Origins>,
}

// A value as EX sees it, and its origin.
#[derive(Clone, Copy)]
pub struct Forwarded {
    pub word: u32,
    pub origin: Origin,
}

// The next EX/MEM of a latch, the way that its instruction goes, and the origins of its operands.
#[derive(Clone, Copy)]
pub struct Execution {
    pub ex_mem: ExMem,
    pub redirect: Option<Place>,
    pub origins: Origins,
}
