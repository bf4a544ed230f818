// The front panel's call: the runner, with at most 256 records and a limit of at most 10,000 ticks.
//
// Wrong programs that the promise of `preview` rules out: 8 for a sheet of 1,283 bytes; 5 for one of 1,285 with an
// unknown command; 9 for a limit of 10,000 or of 1,000,001; 11 where the limit is 10,001; a limit cut down to 10,000; the
// runner lent an empty table.
#![tactic(auto)]

ghost use Rattle.std.specs.Prelude.{◌≡◌};
ghost use Rattle.panel.specs.Inner.{over_check};
ghost use Rattle.panel.specs.Panel.{previewed};

use pipeline::PipelineCpu;
use refusal::Refusal;
use runner::run;
use runs::Ran;
use sheet::Inputs;
use sheet::check::{bad_length, check_limited};

// The length in bytes of the longest sheet.
const MAX_LENGTH: usize = 1_280;

// The highest limit.
const MAX_LIMIT: u32 = 10_000;

// The check of a sheet or a limit that is above the panel's; any other is left to the runner.
#[tactic(auto, unfolding(crate::specs::Inner::over_check, crate::specs::Inner::long_check, crate::specs::Inner::high_check))]
fn check(sheet: &[u8], limit: u32) -> Result<(), Refusal>
    ensures { result ≡ over_check sheet.now limit }
{
    let n = sheet.len();
    if n > MAX_LENGTH {
        if bad_length(n) {
            return Err(Refusal::BadLength);
        }
        return Err(Refusal::LongPreview);
    }
    if limit > MAX_LIMIT {
        check_limited(sheet, limit)?;
        return Err(Refusal::HighPreview);
    }
    Ok(())
}

// Runs a sheet from a state to its end, within the panel's bounds.
#[tactic(auto, using(crate::proofs::Tests::not_over, crate::proofs::Tests::over_refused))]
pub fn preview(state: PipelineCpu, inputs: Inputs<'_>) -> Ran
    ensures { let given = inputs.entry in
        result ≡ previewed state given.sheet.now given.answers.now given.table.now given.limit }
{
    if let Err(refusal) = check(inputs.sheet, inputs.limit) {
        return Ran::refused(refusal, state);
    }
    run(state, inputs)
}
