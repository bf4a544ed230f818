// Short decode.
ghost use Rattle.std.specs.Prelude.{◌<◌, ◌≡◌, ◌%◌};
ghost use Rattle.isa.specs.Short.{decode_short, decoded_of, low_bits, nibble};

use crate::{Decoded, RawInstr, ShortInstruction};

// Nibble `k` of a halfword, counted from the low end. What `as` cuts is below 16; `try_from` would test that again.
#[tactic(auto, unfolding(crate::specs::Short::nibble))]
fn nibble(raw: u16, k: u32) -> u8
    requires { k < 4 }
    ensures { result ≡ nibble raw k }
{
    (raw / 16u16.pow(k) % 16) as u8
}

// The low 8 bits.
fn imm8_of(raw: u16) -> u8
    ensures { result ≡ raw % 256 }
{
    let [_, low] = raw.to_be_bytes();
    low
}

// The low 8 bits, signed.
#[tactic(auto, unfolding(crate::specs::Short::low_bits))]
fn imm8_signed(raw: u16) -> i8
    ensures { result ≡ low_bits 7 raw }
{
    imm8_of(raw).cast_signed()
}

// The low 12 bits, signed.
#[tactic(auto, unfolding(crate::specs::Short::low_bits))]
fn imm12_signed(raw: u16) -> i16
    ensures { result ≡ low_bits 11 raw }
{
    (raw << 4).cast_signed() >> 4
}

impl ShortInstruction {
    // The instruction of a halfword.
    #[tactic(auto, unfolding(crate::specs::Short::short_by, crate::specs::Short::decode_short))]
    pub fn decode_short(raw: u16) -> ShortInstruction
        ensures { result ≡ decode_short raw }
    {
        let op = raw / 4096;
        match op {
            0 => ShortInstruction::Mov {
                rd: nibble(raw, 2),
                rs1: nibble(raw, 1),
            },
            1 => ShortInstruction::Add {
                rd: nibble(raw, 2),
                rs1: nibble(raw, 1),
                rs2: nibble(raw, 0),
            },
            2 => ShortInstruction::Addi {
                rd: nibble(raw, 2),
                imm: imm8_signed(raw),
            },
            3 => ShortInstruction::Ld {
                rd: nibble(raw, 2),
                rs1: nibble(raw, 1),
            },
            4 => ShortInstruction::St {
                rd: nibble(raw, 2),
                rs1: nibble(raw, 1),
            },
            5 => ShortInstruction::Bz {
                rd: nibble(raw, 2),
                offset: imm8_signed(raw),
            },
            6 => ShortInstruction::Bnz {
                rd: nibble(raw, 2),
                offset: imm8_signed(raw),
            },
            7 => ShortInstruction::Jr { rd: nibble(raw, 2) },
            8 => ShortInstruction::Jal {
                offset: imm12_signed(raw),
            },
            9 => ShortInstruction::Ldi {
                rd: nibble(raw, 2),
                imm: imm8_of(raw),
            },
            10..=14 => ShortInstruction::Unknown(raw),
            _ => ShortInstruction::Ret,
        }
    }
}

impl RawInstr {
    // What a fetch brought, decoded.
    #[tactic(auto, unfolding(crate::specs::Short::decoded_of))]
    pub fn decoded(self) -> Decoded
        ensures { result ≡ decoded_of self }
    {
        match self {
            RawInstr::Normal(i) => Decoded::Normal(i),
            RawInstr::Short(raw) => Decoded::Short(ShortInstruction::decode_short(raw)),
        }
    }
}
