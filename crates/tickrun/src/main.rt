// Reads a step sheet from standard input, runs it and writes how it ended; to standard error, why it was refused.
#![tactic(auto)]

ghost use Rattle.std.specs.Prelude.{◌≡◌};
ghost use Rattle.tickrun.specs.Outcome.{outcome};

use input::read_full;
use isa::Start;
use pipeline::PipelineCpu;
use runs::Ran;
use sheet::Inputs;
use std::io::{Result, Write};

// Runs a sheet, with no load answer and no special register.
#[tactic(auto, unfolding(crate::specs::Outcome::outcome))]
fn outcome(sheet: &[u8]) -> Ran
    ensures { result ≡ outcome sheet.now }
{
    let start = PipelineCpu::start(Start::zero());
    let inputs = Inputs {
        sheet,
        answers: &[],
        table: &[],
        limit: 1_000_000,
    };
    runner::run(start, inputs)
}

// Runs what standard input holds, writes the report of that run, and of a refused one which record it was and why.
#[tactic(auto, unfolding(report::specs::Written::written_count))]
fn main(rt: HostRuntime) -> Result<()> {
    // One byte more than a sheet may have, so that a longer one is seen to be too long.
    let mut buf = [0u8; 20481];
    // No text is longer (claims `short` and `short_refusal` of crate report).
    let mut out = [0u8; 4096];
    let n = read_full(&mut rt.stdin(), &mut buf)?;
    let sheet = &buf[..n];
    let ran = outcome(sheet);
    let k = report::write(ran, &mut out);
    rt.stdout().write_all(&out[..k])?;
    let k = report::explain(ran, sheet, &mut out);
    rt.stderr().write_all(&out[..k])
}
