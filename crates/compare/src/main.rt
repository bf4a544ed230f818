// Reads case lines from standard input and writes what the proved functions answer, a line for each.
#![tactic(auto)]

mod case;
mod cases;
mod coded;
mod conversions;
mod fields;
mod held;
mod inputs;
mod instructions;
mod kind;
mod latches;
mod line;
mod logs;
mod numbers;
mod options;
mod places;
mod replies;
mod reports;
mod requests;
mod state;
mod values;

use crate::held::Held;
use crate::line::Line;
use std::io::{BufRead, BufReader, Read, Result, Write};

// The bytes that are read at a time.
const READ: usize = 65536;

// The bytes of a line that are read. The longest case has 152 numbers, each with at most 8 digits and the byte behind it.
const LONGEST: usize = 4096;

// The bytes of answers that are enough to be written.
const ENOUGH: usize = 60000;

// The bytes of answers that there is room for: a line more than are enough.
const ROOM: usize = 65536;

// Reads the next line into an empty text, and says whether the input may go on behind it. A line that is too long for a
// case is no case: its beginning is read, without a line end, and the rest is passed over.
fn read_line<R: BufRead>(input: &mut R, text: &mut Vec<u8>) -> Result<bool> {
    let read = input.by_ref().take(LONGEST as u64).read_until(b'\n', text)?;
    if text.ends_with(b"\n") {
        return Ok(true);
    }
    if read < LONGEST {
        return Ok(false);
    }
    input.skip_until(b'\n')?;
    Ok(true)
}

// The bytes of a text that are filled.
fn written(text: &[u8], filled: usize) -> &[u8] {
    text.get(..filled).unwrap_or(text)
}

// Answers wait in a text until they are enough. A BufWriter would write them after a read that fails, too, when it is
// dropped.
fn main(rt: HostRuntime) -> Result<()> {
    let alloc = rt.alloc();
    let mut input = BufReader::with_capacity(alloc, READ, rt.stdin())?;
    let mut output = rt.stdout();
    let mut held = Held::new(alloc)?;
    let mut text = Vec::with_capacity(alloc, LONGEST)?;
    let mut line = Line::new();
    let mut answers = vec![in alloc; 0; ROOM]?;
    let mut filled = 0;
    // Nothing says that the input ends, so the lines are counted.
    for _ in 0..u64::MAX {
        text.clear();
        let is_open = read_line(&mut input, &mut text)?;
        line.clear();
        if !text.is_empty() && held.reply(&text, &mut line) {
            filled = line.put(answers.as_mut_slice(), filled);
        }
        if filled >= ENOUGH {
            output.write_all(written(&answers, filled))?;
            filled = 0;
        }
        if !is_open {
            break;
        }
    }
    output.write_all(written(&answers, filled))
}
