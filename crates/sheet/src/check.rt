// The check of a whole sheet.
ghost use Rattle.std.specs.Prelude.{◌≡◌};
ghost use Rattle.sheet.specs.Inner.{check_from};
ghost use Rattle.sheet.specs.Sheet.{bad_length, first_check, first_refused, limited_check, sheet_check};

use crate::Record;
use crate::bytes::check_record;
use refusal::Refusal;

// The length in bytes of the longest sheet.
pub const MAX_LENGTH: usize = 20_480;

// The highest limit of a run or a play.
pub const MAX_LIMIT: u32 = 1_000_000;

// The check of the record that starts at a byte of a sheet. That the sum fits is tested, since any start is taken; in the
// loop below the compiler leaves this out.
#[tactic(auto, unfolding(crate::specs::Inner::check_from))]
fn check_from(sheet: &[u8], start: usize) -> Result<(), Refusal>
    ensures { result ≡ check_from sheet.now start }
{
    let end = start.checked_add(Record::SIZE).ok_or(Refusal::BadCommand)?;
    match sheet.get(start..end) {
        Some([c, a, b, d, e]) => check_record(*c, *a, *b, *d, *e),
        _ => Err(Refusal::BadCommand),
    }
}

// The first of so many records that is refused, and its check; their number where none is. A record starts five bytes
// behind the one before.
#[tactic(auto, using(crate::proofs::Refused::passed, crate::proofs::Refused::met), unfolding(crate::specs::Sheet::first_check, crate::specs::Sheet::first_refused))]
fn first_refusal(sheet: &[u8], count: u32) -> (u32, Result<(), Refusal>)
    ensures number { result.0 ≡ first_refused sheet.now 0 count }
    ensures check { result.1 ≡ first_check sheet.now count }
{
    let mut start = 0;
    for k in 0..count {
        let checked = check_from(sheet, start);
        if checked.is_err() {
            return (k, checked);
        }
        start += Record::SIZE;
    }
    (count, Ok(()))
}

// The first of so many records that is refused; their number where none is. It answers a number and not an option: that
// number is what is promised of a sheet without one, and the text of a refusal is defined by it (report specs/Refusal).
pub fn first_refused(sheet: &[u8], count: u32) -> u32
    ensures { result ≡ first_refused sheet.now 0 count }
{
    first_refusal(sheet, count).0
}

// Whether a length is no multiple of 5, or above 20,480 bytes.
#[tactic(auto, unfolding(crate::specs::Sheet::bad_length))]
pub fn bad_length(n: usize) -> bool
    ensures { result ≡ bad_length n }
{
    n % Record::SIZE != 0 || n > MAX_LENGTH
}

// The check of a sheet: its length, then its records. What `as` cuts is at most 4,096; `try_from` would test that again.
// It is no part of its caller's code: beside a play's loop it makes a played instruction take 8.8 ns, and not 7.3.
#[tactic(auto, unfolding(crate::specs::Sheet::bad_length, crate::specs::Sheet::sheet_check))]
#[inline(never)]
pub fn check(sheet: &[u8]) -> Result<(), Refusal>
    ensures { result ≡ sheet_check sheet.now }
{
    let n = sheet.len();
    if bad_length(n) {
        return Err(Refusal::BadLength);
    }
    first_refusal(sheet, (n / Record::SIZE) as u32).1
}

// The same, then the check of a limit.
#[tactic(auto, unfolding(crate::specs::Sheet::limited_check))]
pub fn check_limited(sheet: &[u8], limit: u32) -> Result<(), Refusal>
    ensures { result ≡ limited_check sheet.now limit }
{
    check(sheet)?;
    if limit > MAX_LIMIT {
        return Err(Refusal::BadLimit);
    }
    Ok(())
}
