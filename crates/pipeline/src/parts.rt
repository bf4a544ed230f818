// The parts of the tick called by themselves.
ghost use Rattle.std.specs.Prelude.{◌≡◌};
ghost use Rattle.pipeline.specs.Parts.{decode_part, execute_part, forwarded_part, hazard_part};
ghost use Rattle.pipeline.specs.Parts.{mul_div_part, retire_part, retired, sources_part};

use crate::refusals::fits_special;
use crate::{Execution, Forwarded, PipelineCpu, Ticked};
use isa::Decoded;
use latch::execute::effect_from;
use latch::forwarding::operand;
use latch::{IdEx, IfId};
use origin::choice::{origin_of, origins_of};
use refusal::Refusal;

// The two sources of what IF/ID holds.
#[tactic(auto, unfolding(crate::specs::Parts::sources_part))]
pub fn id_sources(f: IfId) -> Result<(u8, u8), Refusal>
    ensures { result ≡ sources_part f }
{
    if f.out_of_bounds() {
        return Err(Refusal::OutOfBounds);
    }
    let o = f.raw.decoded().operands();
    Ok((o.src_a, o.src_b))
}

// The latency of a multiply or divide.
#[tactic(auto, unfolding(crate::specs::Parts::mul_div_part))]
pub fn is_mul_div(d: Decoded) -> Result<Option<u32>, Refusal>
    ensures { result ≡ mul_div_part d }
{
    if !d.in_bounds() {
        return Err(Refusal::OutOfBounds);
    }
    Ok(d.operands().latency.map(u32::from))
}

// Whether two sources wait for the load in a latch.
#[tactic(auto, unfolding(crate::specs::Parts::hazard_part))]
pub fn load_use_hazard(d: IdEx, a: u8, b: u8) -> Result<bool, Refusal>
    ensures { result ≡ hazard_part d a b }
{
    if d.out_of_bounds() | (31 < a) | (31 < b) {
        return Err(Refusal::OutOfBounds);
    }
    Ok(d.load_is_used(a, b))
}

impl PipelineCpu {
    // The value of a register as EX sees it, and its origin.
    #[tactic(auto, unfolding(crate::specs::Parts::forwarded_part, stages::specs::Forwarding::forwarded, stages::specs::Forwarding::origin_of))]
    pub fn forwarded(self, r: u8) -> Result<Forwarded, Refusal>
        ensures { result ≡ forwarded_part self r }
    {
        let l = self.stages;
        if l.out_of_bounds() | (31 < r) {
            return Err(Refusal::OutOfBounds);
        }
        Ok(Forwarded {
            word: operand(l.ex_mem, l.mem_wb, l.features, &self.reg, r),
            origin: origin_of(l.ex_mem, l.mem_wb, r),
        })
    }

    // The next EX/MEM of a latch, the way that its instruction goes, and the origins of its operands.
    #[tactic(auto, unfolding(crate::specs::Parts::execute_part, stages::specs::Execute::effect_for, stages::specs::Forwarding::origins_for))]
    pub fn execute_ex(self, d: IdEx, special: Option<Option<u32>>) -> Result<Execution, Refusal>
        ensures { result ≡ execute_part self d special }
    {
        let l = self.stages;
        if l.out_of_bounds() | d.out_of_bounds() {
            return Err(Refusal::OutOfBounds);
        }
        let e = effect_from(l.user, l.ex_mem, l.mem_wb, l.features, &self.reg, d);
        if !fits_special(e.inquiry, special) {
            return Err(Refusal::BadSpecial);
        }
        Ok(Execution {
            ex_mem: d.ex_mem(e.filled(special)),
            redirect: e.redirect,
            origins: origins_of(l.ex_mem, l.mem_wb, d),
        })
    }

    // The ID/EX that a latch decodes to.
    #[tactic(auto, unfolding(crate::specs::Parts::decode_part))]
    pub fn decode_id(self, f: IfId) -> Result<IdEx, Refusal>
        ensures { result ≡ decode_part self f }
    {
        if self.stages.out_of_bounds() | f.out_of_bounds() {
            return Err(Refusal::OutOfBounds);
        }
        Ok(f.decode(&self.reg))
    }

    // The state after the retirement of MEM/WB, where it is not refused.
    fn retired(self) -> Result<PipelineCpu, Refusal>
        ensures { result ≡ retired self }
    {
        self.check_by(self.stages.is_faulty_alone())?;
        let mut reg = self.reg;
        let stages = self.stages.retire(&mut reg);
        let counts = self.counts.retire(self.stages.mem_wb.valid);
        Ok(PipelineCpu {
            reg,
            stages,
            counts,
        })
    }

    // The state after the retirement of MEM/WB; a refused one is handed back as it was.
    #[tactic(auto, unfolding(crate::specs::Parts::retire_part))]
    pub fn retire(self) -> Ticked
        ensures { result ≡ retire_part self }
    {
        self.handed_back(self.retired())
    }
}
