// The stages of the pipeline and its counters: retirement, the plan of a tick and the move that it makes, over lent
// registers.
//
// Wrong programs that the promises rule out, for each function two. A name in brackets is the must-fail edit that
// tries one, in the code or in its definition:
// - Stages::out_of_bounds: an invalid latch not tested; a wait of 15 out of bounds; 2,001 ticks left of a wait for the
//   memory in bounds (wait_of_2001_left).
// - Stages::waits_for_memory: false with one tick left; false for a machine that does not run.
// - Stages::is_awake: true for a machine that does not run; true while a wait for the memory is left.
// - Stages::is_faulty: the exception of an invalid latch; 12 while a wait for the memory is left (faulty_in_a_wait).
// - Stages::is_faulty_alone: 12 for a machine that does not run; none while a wait for the memory is left.
// - Stages::retire: MEM/WB emptied; EX/MEM kept at a HALT (halt_leaves_ex_mem); a wait for the memory ended by a HALT
//   (halt_clears_the_wait).
// - Stages::wait_for_memory: two ticks taken off; a tick of the wait in EX taken off too.
// - Stages::waits_on: true with one tick left; true where no wait is armed.
// - Stages::wait: EX/MEM kept; the ticks left not counted down.
// - Stages::plan: the wait of a multiply begun again although it has just ended; a prediction followed although the
//   tick redirects; a special register asked for while a wait begins (asked_while_a_wait_begins).
// - Stages::fetches: no fetch in a redirecting tick; a fetch after a HALT.
// - Stages::loads: true for an invalid EX/MEM; true for a width of 0.
// - Stages::wants_load: the load behind a HALT; the load of an invalid EX/MEM.
// - Stages::advance: IF/ID kept by a redirect; the front end moved on behind a used load; MFSR's word not its result;
//   the waits told not left.
// - Counters::is_full: true one below the top; the flushes not tested.
// - Counters::idle: a running tick counted; a full counter that starts again at 0.
// - Counters::retire: a tick counted; an invalid MEM/WB counted as retired.
// - Counters::count: a flush counted as a stall; a full counter that starts again at 0.
#![tactic(auto)]

mod advance;
mod counting;
mod execute;
mod planning;
mod refusals;
mod retire;
mod wants;

use isa::{Decoded, Operands, Place, RawInstr};
use latch::{ExMem, IdEx, IfId, MemWb};

// Fetch and retire place, latches, the wait in EX, the ticks left of a wait for the memory. `ex_cycles_left` stands
// beside `ex_armed` as in the Rust: a caller may hand in up to 15 ticks with a wait that is not armed, and they are kept
// (RULES 19.2).
#[derive(Clone, Copy)]
pub struct Stages {
    pub fetch_at: Place,
    pub retire_at: Place,
    pub running: bool,
    pub user: bool,
    pub features: u32,
    pub if_id: IfId,
    pub id_ex: IdEx,
    pub ex_mem: ExMem,
    pub mem_wb: MemWb,
    pub ex_cycles_left: u32,
    pub ex_armed: bool,
    pub wait_left: u32,
}

// What is counted: ticks, running ticks, instructions retired, stalls, flushes.
#[derive(Clone, Copy, Default)]
pub struct Counters {
    pub cycles: u64,
    pub running_cycles: u64,
    pub instructions_executed: u64,
    pub stall_cycles: u64,
    pub flush_events: u64,
}

// What a tick takes in: the load's answer, the instruction offered, what is said of a special register, if anything
// (that there is none, or its word), and how many ticks to wait for the memory. What a tick does not ask for is a 0 or a
// NOP here and is not looked at; with options the runner's loop would test again what it has just asked.
#[derive(Clone, Copy, Default)]
pub struct Taken {
    pub answer: u32,
    pub raw: RawInstr,
    pub special: Option<Option<u32>>,
    pub wait: u32,
}

// What the rest of a tick does once MEM/WB has retired: continue or begin a wait in EX, hold the front
// end behind a used load, go on, or redirect.
#[derive(Clone, Copy)]
pub enum Move {
    KeepWaiting,
    BeginWait,
    LoadUseStall(Option<Place>),
    Proceed,
    Redirect(Place),
}

// What IF/ID holds, decoded, with its operands and the prediction.
#[derive(Clone, Copy)]
pub struct Front {
    pub decoded: Decoded,
    pub operands: Operands,
    pub predicted: Option<Place>,
}

// What a tick plans once MEM/WB has retired: its move, the next EX/MEM, which stands only where no special register is
// asked for, that register, the front, the place to fetch from.
#[derive(Clone, Copy)]
pub struct Plan {
    pub step: Move,
    pub ex_mem: ExMem,
    pub inquiry: Option<u16>,
    pub front: Front,
    pub place: Place,
}
