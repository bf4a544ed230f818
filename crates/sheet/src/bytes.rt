// The check of a record by its bytes. It makes no record, so that only a fetch does.
ghost use Rattle.std.specs.Prelude.{◌≡◌};
ghost use Rattle.sheet.specs.Inner.{in_bounds, is_record};
ghost use Rattle.sheet.specs.Records.{record_of};
ghost use Rattle.sheet.specs.Sheet.{record_check};

use crate::records::zeros;
use refusal::Refusal;

// Whether there is such a command and its unused bytes are zero.
#[tactic(auto, unfolding(crate::specs::Records::within, crate::specs::Inner::is_record))]
fn is_record(c: u8, a: u8, b: u8, d: u8, e: u8) -> bool
    ensures { result ≡ is_record c a b d e }
{
    match c {
        0x00..=0x03 => zeros(a, b, d, e),
        0x10..=0x1F => e == 0,
        0x20..=0x28 | 0x60..=0x61 => true,
        0x30..=0x33 => b == 0,
        0x40..=0x43 => zeros(0, b, d, e),
        0x50..=0x54 => zeros(a, b, 0, 0),
        _ => false,
    }
}

// Whether the registers of a command are below 32.
#[tactic(auto, unfolding(crate::specs::Records::within, crate::specs::Inner::in_bounds))]
fn in_bounds(c: u8, a: u8, b: u8, d: u8) -> bool
    ensures { result ≡ in_bounds c a b d }
{
    match c {
        0x10..=0x1F => a < 32 && b < 32 && d < 32,
        0x20..=0x28 => a < 32 && b < 32,
        0x30..=0x33 | 0x40..=0x43 => a < 32,
        _ => true,
    }
}

// The check of a record: no such command or an unused byte not zero, then a register above 31.
#[tactic(auto, using(crate::proofs::RecordBytes::is_refused, crate::proofs::RecordBytes::is_bounded))]
pub(crate) fn check_record(c: u8, a: u8, b: u8, d: u8, e: u8) -> Result<(), Refusal>
    ensures { result ≡ record_check (record_of c a b d e) }
{
    if !is_record(c, a, b, d, e) {
        return Err(Refusal::BadCommand);
    }
    if !in_bounds(c, a, b, d) {
        return Err(Refusal::BadRegister);
    }
    Ok(())
}
