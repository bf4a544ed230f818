// Input read into a lent buffer.
//
// Wrong programs that the promise of `read_full` rules out: one read alone; each read to the buffer's start; a read of
// one byte taken for the input's end.
#![tactic(auto)]

ghost use Rattle.std.specs.Prelude.{ℕ, ◌<◌, ◌≤◌, IfOk, OnErr, length, take};
ghost use Rattle.std.specs.Io.KnownBytes.{Consumes, IsAtEnd};

use std::io::{Read, Result};

// Reads until the buffer is full or the input has ended, and answers how many bytes were read. A read that fails ends
// it at once, and what was read before stands in the buffer. What stands behind the bytes read is the reader's to say.
pub fn read_full<R: Read>(from: &mut R, buf: &mut [u8]) -> Result<usize>
    ensures within { IfOk result (λ n. n ≤ length buf.new) }
    ensures bytes { IfOk result (λ n. Consumes (R.remaining from.old) (R.remaining from.new) (take n buf.new)) }
    ensures kept { OnErr result
        ((n : ℕ) × (n ≤ length buf.new) × Consumes (R.remaining from.old) (R.remaining from.new) (take n buf.new)) }
    ensures end { IfOk result (λ n. n < length buf.new → IsAtEnd (R.remaining from.new)) }
{
    // The loop keeps the count, which is the answer; the rest as a slice that moves on would need the count beside it. The
    // library's `read_exact` fails where the input is shorter than the buffer, and gives no count.
    let mut done = 0;
    while done < buf.len() {
        let n = from.read(&mut buf[done..])?;
        if n == 0 {
            break;
        }
        done += n;
    }
    Ok(done)
}
