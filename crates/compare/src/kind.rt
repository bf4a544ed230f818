// The kinds of case lines, by their first number.
use crate::numbers::Malformed;

#[derive(Clone, Copy, Debug)]
pub enum Kind {
    Arithmetic,
    Halfword,
    NormalOperands,
    ShortOperands,
    Tick,
    Ask,
    Forwarded,
    Execute,
    Decode,
    Sources,
    MulDiv,
    Hazard,
    Retire,
    Start,
    HeldStart,
    HeldTick,
    HeldState,
    HeldSheet,
    HeldAnswers,
    HeldTable,
    Run,
    Play,
    Preview,
    LoggedTick,
    HeldLog,
    HeldLoggedTick,
    HeldLogBytes,
    HeldRead,
    Read,
    Trades,
    HeldPlaces,
}

impl TryFrom<u32> for Kind {
    type Error = Malformed;

    fn try_from(number: u32) -> Result<Kind, Malformed> {
        Ok(match number {
            0x1 => Kind::Arithmetic,
            0x2 => Kind::Halfword,
            0x3 => Kind::NormalOperands,
            0x4 => Kind::ShortOperands,
            0x5 => Kind::Tick,
            0x6 => Kind::Ask,
            0x7 => Kind::Forwarded,
            0x8 => Kind::Execute,
            0x9 => Kind::Decode,
            0xA => Kind::Sources,
            0xB => Kind::MulDiv,
            0xC => Kind::Hazard,
            0xD => Kind::Retire,
            0xE => Kind::Start,
            0xF => Kind::HeldStart,
            0x10 => Kind::HeldTick,
            0x11 => Kind::HeldState,
            0x12 => Kind::HeldSheet,
            0x13 => Kind::HeldAnswers,
            0x14 => Kind::Run,
            0x15 => Kind::Play,
            0x16 => Kind::Preview,
            0x17 => Kind::HeldTable,
            0x18 => Kind::LoggedTick,
            0x19 => Kind::HeldLog,
            0x1A => Kind::HeldLoggedTick,
            0x1B => Kind::HeldLogBytes,
            0x1C => Kind::HeldRead,
            0x1D => Kind::Read,
            0x1E => Kind::Trades,
            0x1F => Kind::HeldPlaces,
            _ => return Err(Malformed),
        })
    }
}
