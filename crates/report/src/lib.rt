// What tickrun prints: a run's report and, of a refused one, which record it was and why; each into a lent buffer.
//
// Wrong programs that the promises rule out:
// - write: R31 never written; the stalls for the flushes; `end spend`; 12 for the number of every refusal; a number above
//   255 cut to a byte (number_cut_to_a_byte); a byte behind the text changed.
// - explain: a record counted as five addresses; the reason of 5 for 1; nothing for a number that names no refusal
//   (told_by_reason_alone).
#![tactic(auto)]

ghost use Rattle.std.specs.Prelude.{◌≡◌, ◌≤◌, length};
ghost use Rattle.report.specs.Refusal.{refusal_of};
ghost use Rattle.report.specs.Text.{report_text};
ghost use Rattle.report.specs.Written.{written, written_count};

mod lines;
mod pieces;
mod reasons;

use crate::lines::{put_counts, put_end, put_registers};
use crate::reasons::put_refusal;
use runs::Ran;

// The text at the start of a buffer, `len` bytes of it. What does not fit is cut off at the buffer's end.
// The library's `Cursor` has both fields, but doesn't promise that `write` stays in that buffer; `InlineText` owns one.
#[derive(Drop)]
struct Text<'a> {
    out: &'a mut [u8],
    len: usize,
    ghost within: { len ≤ length out.now },
}

// Writes a run's report at the start of a buffer and answers how many bytes of it stand there.
pub fn write(ran: Ran, out: &mut [u8]) -> usize
    ensures out_after { out.new ≡ written (report_text ran) out.old }
    ensures value { result ≡ written_count (report_text ran) out.old }
{
    let mut text = Text::new(out);
    put_end(&mut text, ran.end);
    put_counts(&mut text, ran.ticks, &ran.state.counts);
    put_registers(&mut text, &ran.state.reg);
    text.len()
}

// Writes which record was refused and why, where a run of a sheet was refused, in the same way.
pub fn explain(ran: Ran, sheet: &[u8], out: &mut [u8]) -> usize
    ensures out_after { out.new ≡ written (refusal_of ran sheet.now) out.old }
    ensures value { result ≡ written_count (refusal_of ran sheet.now) out.old }
{
    let mut text = Text::new(out);
    put_refusal(&mut text, ran.end, sheet, &ran.state.stages.mem_wb);
    text.len()
}
