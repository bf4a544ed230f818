// What a case is answered where one call does not give it.
use crate::inputs::Halfword;
use isa::{Decoded, Operands, RawInstr};
use pipeline::parts::is_mul_div;
use pipeline::{PipelineCpu, Wanted};
use refusal::Refusal;

// The high half and the low half of what the arithmetic of a command gives.
pub fn arithmetic([command, a, b]: [u32; 3]) -> [u32; 2] {
    match word::checked_arithmetic(command, a, b) {
        Some(word) => [0, word],
        None => [1, Refusal::BadCommand.number()],
    }
}

pub fn short_operands(Halfword(half): Halfword) -> Operands {
    RawInstr::Short(half).decoded().operands()
}

// 0, or the number of the refusal.
pub fn code<T: Copy>(answer: Result<T, Refusal>) -> u32 {
    match answer {
        Ok(_) => 0,
        Err(refusal) => refusal.number(),
    }
}

// The code and what is wanted: nothing where asking is refused.
pub fn asked(state: PipelineCpu) -> (u32, Wanted) {
    let asked = state.ask();
    (code(asked), asked.unwrap_or_default())
}

// 0 for no latency.
pub fn latency(decoded: Decoded) -> Result<u32, Refusal> {
    Ok(is_mul_div(decoded)?.unwrap_or_default())
}

pub fn retired(state: PipelineCpu) -> Result<PipelineCpu, Refusal> {
    let retired = state.retire();
    retired.outcome?;
    Ok(retired.state)
}
