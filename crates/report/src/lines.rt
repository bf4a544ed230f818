// The lines of a report.
ghost use Rattle.report.specs.Inner.{Puts};
ghost use Rattle.report.specs.Text.{count_lines, end_line, register_line, register_lines};

use crate::Text;
use sheet::End;
use stages::Counters;

// How the run ended.
#[tactic(auto, unfolding(crate::specs::Text::end_line))]
pub(crate) fn put_end(text: &mut Text, end: End)
    ensures { Puts text.old (end_line end) text.new }
{
    match end {
        End::Halted => text.put(b"end halted\n"),
        End::Spent => text.put(b"end spent\n"),
        End::Refused(refusal) => text.put_line(b"end refused", u64::from(refusal.number())),
        End::Loads => text.put(b"end loads\n"),
        End::Numbered(number) => text.put_line(b"end refused", u64::from(number)),
    }
}

// The ticks done, then three counters.
#[tactic(auto, using(crate::proofs::Put::put_both), unfolding(crate::specs::Text::count_lines))]
pub(crate) fn put_counts(text: &mut Text, ticks: u32, counts: &Counters)
    ensures { Puts text.old
        (count_lines ticks counts.now.instructions_executed counts.now.stall_cycles counts.now.flush_events)
        text.new }
{
    text.put_line(b"ticks", u64::from(ticks));
    text.put_line(b"retired", counts.instructions_executed);
    text.put_line(b"stalls", counts.stall_cycles);
    text.put_line(b"flushes", counts.flush_events);
}

// A register with its value, unless that is 0.
// `as`, since no `From` leads from `usize` to 64 bits; over a `zip` with numbers of 64 bits the proof did not close.
#[tactic(auto, using(crate::proofs::Put::put_both, crate::proofs::Put::put_nothing), unfolding(crate::specs::Text::register_line, crate::specs::Ascii::line))]
fn put_register(text: &mut Text, r: usize, value: u32)
    ensures { Puts text.old (register_line r value) text.new }
{
    if value != 0 {
        text.put(b"R");
        text.put_number(r as u64);
        text.put_value(u64::from(value));
    }
}

// The registers, lowest first.
#[tactic(auto, using(crate::proofs::Put::put_both, crate::proofs::Put::put_nothing, std::proofs::lemmas::Grind::common_steps), unfolding(crate::specs::Text::register_lines))]
pub(crate) fn put_registers(text: &mut Text, reg: &[u32; 32])
    ensures { Puts text.old (register_lines 32 reg.now) text.new }
{
    for (r, value) in reg.iter().enumerate() {
        put_register(text, r, *value);
    }
}
