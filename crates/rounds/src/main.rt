// Runs a sheet so many times from the start of RULES 20.1, and writes the sum of the ticks used and the sum of the
// instructions retired. Standard input: rounds and tick limit, four bytes each, high byte first, then the sheet.
// Every load answer is 0, and there is no special register.
//
// `playrounds` is alike: what both need is in crates `bench` and `input`, and each has the loop that it measures.
#![tactic(auto)]

use bench::Given;
use input::read_full;
use isa::Start;
use pipeline::PipelineCpu;
use std::io::Result;

fn main(rt: HostRuntime) -> Result<()> {
    let mut buf = [0u8; 20488];
    let n = read_full(&mut rt.stdin(), &mut buf)?;
    let Some(given) = Given::of(&buf[..n], &[0; 8192]) else {
        return Ok(());
    };
    let mut ticks: u32 = 0;
    let mut instructions: u64 = 0;
    for _ in 0..given.rounds {
        let start = PipelineCpu::start(Start::zero());
        let ran = runner::run(start, given.inputs);
        ticks = ticks.wrapping_add(ran.ticks);
        instructions = instructions.wrapping_add(ran.state.counts.instructions_executed);
    }
    println!(rt; "{ticks} {instructions}")
}
