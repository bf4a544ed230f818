// The list of places that is held from line to line.
use crate::cases::code;
use crate::conversions::low_word;
use crate::numbers::Malformed;
use std::alloc::{AllocError, Global};
use trades::places;

// How many entries it has.
const HELD: usize = 4160;

#[derive(Drop)]
pub struct HeldPlaces(Vec<u16>);

impl HeldPlaces {
    pub fn new(alloc: Global) -> Result<HeldPlaces, AllocError> {
        Ok(HeldPlaces(vec![in alloc; 0; HELD]?))
    }

    // Fills all entries anew and lends the first so many with a sheet: the code, and how many places they have then.
    // `as` here and below, since the library has no conversions between `usize` and 32 or 64 bits.
    pub fn list(
        &mut self,
        sheet: &[u8],
        (length, fill): (u32, u16),
    ) -> Result<(u32, u32), Malformed> {
        let entries = self.0.as_mut_slice();
        entries.fill(fill);
        let list = entries.get_mut(..length as usize).ok_or(Malformed)?;
        let listed = places(sheet, list);
        Ok((code(listed), low_word(listed.unwrap_or(0) as u64)))
    }

    // The 64 entries from a place on.
    pub fn entries_at(&self, at: u32) -> Result<[u16; 64], Malformed> {
        let from = self.0.as_slice().get(at as usize..).ok_or(Malformed)?;
        from.first_chunk().copied().ok_or(Malformed)
    }
}
