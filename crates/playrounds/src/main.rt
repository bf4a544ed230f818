// Plays a sheet so many times from the start of RULES 20.1, and writes the sum of the instructions done. Standard
// input: rounds and limit on instructions, four bytes each, high byte first, then the sheet. Every load answer is 0, and
// there is no special register.
//
// `rounds` is alike: what both need is in crates `bench` and `input`, and each has the loop that it measures.
#![tactic(auto)]

use bench::Given;
use input::read_full;
use isa::Start;
use std::io::Result;

fn main(rt: HostRuntime) -> Result<()> {
    let mut buf = [0u8; 20488];
    let n = read_full(&mut rt.stdin(), &mut buf)?;
    let Some(given) = Given::of(&buf[..n], &[0; 8192]) else {
        return Ok(());
    };
    let mut instructions: u64 = 0;
    for _ in 0..given.rounds {
        let played = player::play(Start::zero(), given.inputs);
        instructions = instructions.wrapping_add(u64::from(played.done));
    }
    println!(rt; "{instructions}")
}
