// Which record was refused and why.
ghost use Rattle.std.specs.Prelude.{◌*◌, ◌≡◌};
ghost use Rattle.report.specs.Inner.{Puts};
ghost use Rattle.report.specs.Refusal.{explained, fault_reason, hex_digit, hex_four, hexadecimal, reason_text};
ghost use Rattle.report.specs.Refusal.{numbered_by, record_text, refusal_by, refusal_text, with_reason};
ghost use Rattle.sheet.specs.Sheet.{first_refused};

use crate::Text;
use isa::Exception;
use latch::MemWb;
use refusal::Refusal;
use sheet::check::{MAX_LENGTH, first_refused};
use sheet::{End, Record};

// How many records the longest sheet has. `as`, since a constant's value can't call `try_from`.
const MAX_RECORDS: u32 = (MAX_LENGTH / Record::SIZE) as u32;

// The digit of the lowest four bits. What `as` cuts is an ASCII letter; `try_from` would test that again.
#[tactic(auto, unfolding(crate::specs::Refusal::hex_digit))]
fn hex_digit(n: u32) -> u8
    ensures { result ≡ hex_digit n }
{
    let digit = char::from_digit(n % 16, 16).unwrap();
    digit.to_ascii_uppercase() as u8
}

// The lowest sixteen bits.
#[tactic(auto, unfolding(crate::specs::Refusal::hex_four))]
fn put_four(text: &mut Text, n: u32)
    ensures { Puts text.old (hex_four n) text.new }
{
    text.put(&[n / 4096, n / 256, n / 16, n].map(hex_digit));
}

// An address.
#[tactic(auto, using(crate::proofs::Put::put_both), unfolding(crate::specs::Refusal::hexadecimal))]
fn put_hex(text: &mut Text, n: u32)
    ensures { Puts text.old (hexadecimal n) text.new }
{
    if n >= 65536 {
        put_four(text, n / 65536);
    }
    put_four(text, n);
}

// The record of an address.
#[tactic(auto, using(crate::proofs::Put::put_both), unfolding(crate::specs::Refusal::record_text))]
fn put_record(text: &mut Text, pc: u32)
    ensures { Puts text.old (record_text pc) text.new }
{
    text.put(b"record ");
    text.put_number(u64::from(pc / 4));
    text.put(b", address ");
    put_hex(text, pc);
}

// The number of the refusal, and why.
#[tactic(auto, using(crate::proofs::Put::put_both), unfolding(crate::specs::Refusal::reason_text))]
fn put_reason(text: &mut Text, refusal: Refusal, why: &[u8])
    ensures { Puts text.old (reason_text refusal why.now) text.new }
{
    text.put(b": refused ");
    text.put_number(u64::from(refusal.number()));
    text.put(b", ");
    text.put(why);
    text.put(b"\n");
}

// Which record it was, and the reason.
#[tactic(auto, using(crate::proofs::Put::put_both), unfolding(crate::specs::Refusal::explained))]
fn put_explained(text: &mut Text, pc: u32, refusal: Refusal, why: &[u8])
    ensures { Puts text.old (explained pc refusal why.now) text.new }
{
    text.put(b"tickrun: ");
    put_record(text, pc);
    put_reason(text, refusal, why);
}

// What came to retire where 12 applies.
#[tactic(auto, unfolding(crate::specs::Refusal::fault_reason))]
fn fault_reason(exception: Option<Exception>, iret: bool) -> &'static [u8]
    ensures { result.now ≡ fault_reason exception iret }
{
    match exception {
        None if iret => b"it is IRET",
        None => b"it is MTSR",
        Some(Exception::PrivilegedInstruction) => b"it is privileged",
        Some(Exception::IllegalInstruction) => b"no such instruction, or no such special register",
        Some(Exception::Syscall(_)) => b"it is SYSCALL",
    }
}

// By the refusal, the address of the first refused record, and the latch that holds what retires next.
#[tactic(auto, unfolding(crate::specs::Refusal::refusal_by))]
fn put_refused(text: &mut Text, refusal: Refusal, first: u32, m: &MemWb)
    ensures { Puts text.old (refusal_by refusal first m.now) text.new }
{
    match refusal {
        Refusal::BadRegister => put_explained(
            text,
            first,
            refusal,
            b"it names a register above 31",
        ),
        Refusal::BadCommand => put_explained(
            text,
            first,
            refusal,
            b"no such command, or a byte is not 0 where it must be",
        ),
        Refusal::BadLength => text.put(
            b"tickrun: refused 6, the number of bytes is above 20480 or not divisible by 5\n",
        ),
        Refusal::Faulty => put_explained(text, m.pc, refusal, fault_reason(m.exception, m.iret)),
        _ => text.put_line(b"tickrun: refused", u64::from(refusal.number())),
    }
}

// The refusals that have a reason beside their number, by it.
#[tactic(auto, unfolding(crate::specs::Refusal::with_reason))]
fn with_reason(number: u32) -> Option<Refusal>
    ensures { result ≡ with_reason number }
{
    match number {
        1 => Some(Refusal::BadRegister),
        5 => Some(Refusal::BadCommand),
        6 => Some(Refusal::BadLength),
        12 => Some(Refusal::Faulty),
        _ => None,
    }
}

// The same by the number of the refusal, which may be any.
#[tactic(auto, unfolding(crate::specs::Refusal::numbered_by))]
fn put_numbered(text: &mut Text, number: u32, first: u32, m: &MemWb)
    ensures { Puts text.old (numbered_by (with_reason number) number first m.now) text.new }
{
    match with_reason(number) {
        Some(refusal) => put_refused(text, refusal, first, m),
        None => text.put_line(b"tickrun: refused", u64::from(number)),
    }
}

// The address of the first refused record.
fn first_address(sheet: &[u8]) -> u32
    ensures { result ≡ first_refused sheet.now 0 4096 * 4 }
{
    first_refused(sheet, MAX_RECORDS) * 4
}

// Of a run of a sheet; nothing where it was not refused.
#[tactic(auto, unfolding(crate::specs::Refusal::refusal_text))]
pub(crate) fn put_refusal(text: &mut Text, end: End, sheet: &[u8], m: &MemWb)
    ensures { Puts text.old (refusal_text end sheet.now m.now) text.new }
{
    match end {
        End::Refused(refusal) => put_refused(text, refusal, first_address(sheet), m),
        End::Numbered(number) => put_numbered(text, number, first_address(sheet), m),
        End::Halted | End::Spent | End::Loads => {}
    }
}
