// A record's instruction, by its command byte and four operand bytes.
ghost use Rattle.std.specs.Prelude.{◌≡◌};
ghost use Rattle.isa.specs.Short.{low_bits};
ghost use Rattle.sheet.specs.Records.{both, far_of, half_of, jump_of, line_if, offset_of, plain_of, record_of};
ghost use Rattle.sheet.specs.Records.{three_of, zeros};

use crate::Record;
use isa::Instruction;

// Two bytes as 16 bits, high byte first.
#[tactic(auto, unfolding(crate::specs::Records::both))]
fn both(h: u8, l: u8) -> u16
    ensures { result ≡ both h l }
{
    u16::from_be_bytes([h, l])
}

// The same, signed.
#[tactic(auto, unfolding(isa::specs::Short::low_bits, crate::specs::Records::both))]
fn signed(h: u8, l: u8) -> i16
    ensures { result ≡ low_bits 15 (both h l) }
{
    i16::from_be_bytes([h, l])
}

// Every byte is zero.
#[tactic(auto, unfolding(crate::specs::Records::zeros))]
pub(crate) fn zeros(a: u8, b: u8, d: u8, e: u8) -> bool
    ensures { result ≡ zeros a b d e }
{
    a == 0 && b == 0 && d == 0 && e == 0
}

// The instruction, where its unused bytes are zero. It has a name, since five of the ranges below ask for it.
#[tactic(auto, unfolding(crate::specs::Records::line_if))]
fn line_if(zero: bool, i: Instruction) -> Option<Record>
    ensures { result ≡ line_if zero i }
{
    zero.then_some(Record::Line(i))
}

// 00 to 03.
#[tactic(auto, unfolding(crate::specs::Records::plain_of))]
fn plain_of(c: u8) -> Instruction
    ensures { result ≡ plain_of c }
{
    match c {
        0x00 => Instruction::Nop,
        0x01 => Instruction::Cpuid,
        0x02 => Instruction::Halt,
        _ => Instruction::Iret,
    }
}

// 10 to 1F: three registers.
#[tactic(auto, unfolding(crate::specs::Records::three_of))]
fn three_of(c: u8, rd: u8, rs1: u8, rs2: u8) -> Instruction
    ensures { result ≡ three_of c rd rs1 rs2 }
{
    match c {
        0x10 => Instruction::Add { rd, rs1, rs2 },
        0x11 => Instruction::Sub { rd, rs1, rs2 },
        0x12 => Instruction::And { rd, rs1, rs2 },
        0x13 => Instruction::Or { rd, rs1, rs2 },
        0x14 => Instruction::Xor { rd, rs1, rs2 },
        0x15 => Instruction::Sll { rd, rs1, rs2 },
        0x16 => Instruction::Srl { rd, rs1, rs2 },
        0x17 => Instruction::Sla { rd, rs1, rs2 },
        0x18 => Instruction::Sra { rd, rs1, rs2 },
        0x19 => Instruction::Slt { rd, rs1, rs2 },
        0x1A => Instruction::Sltu { rd, rs1, rs2 },
        0x1B => Instruction::Mul { rd, rs1, rs2 },
        0x1C => Instruction::Mulh { rd, rs1, rs2 },
        0x1D => Instruction::Div { rd, rs1, rs2 },
        0x1E => Instruction::Divu { rd, rs1, rs2 },
        _ => Instruction::Mod { rd, rs1, rs2 },
    }
}

// 20 to 28: two registers and 16 signed bits.
#[tactic(auto, unfolding(crate::specs::Records::offset_of))]
fn offset_of(c: u8, rd: u8, base: u8, offset: i16) -> Instruction
    ensures { result ≡ offset_of c rd base offset }
{
    match c {
        0x20 => Instruction::Addi {
            rd,
            rs1: base,
            imm: offset,
        },
        0x21 => Instruction::Ld { rd, base, offset },
        0x22 => Instruction::Ldh { rd, base, offset },
        0x23 => Instruction::Ldb { rd, base, offset },
        0x24 => Instruction::St { rd, base, offset },
        0x25 => Instruction::Sth { rd, base, offset },
        0x26 => Instruction::Stb { rd, base, offset },
        0x27 => Instruction::Beq {
            rs1: rd,
            rs2: base,
            offset,
        },
        _ => Instruction::Bne {
            rs1: rd,
            rs2: base,
            offset,
        },
    }
}

// 30 to 33: a register and 16 bits.
#[tactic(auto, unfolding(crate::specs::Records::half_of))]
fn half_of(c: u8, a: u8, n: u16) -> Instruction
    ensures { result ≡ half_of c a n }
{
    match c {
        0x30 => Instruction::Ldil { rd: a, imm: n },
        0x31 => Instruction::Ldih { rd: a, imm: n },
        0x32 => Instruction::Mtsr { rs: a, sr: n },
        _ => Instruction::Mfsr { rd: a, sr: n },
    }
}

// 40 to 43: a register.
#[tactic(auto, unfolding(crate::specs::Records::jump_of))]
fn jump_of(c: u8, rd: u8) -> Instruction
    ensures { result ≡ jump_of c rd }
{
    match c {
        0x40 => Instruction::Jr { rd },
        0x41 => Instruction::Jrs { rd },
        0x42 => Instruction::Jalr { rd },
        _ => Instruction::Jalrs { rd },
    }
}

// 50 to 54: 16 bits, of which all but SYSCALL's are signed.
#[tactic(auto, unfolding(crate::specs::Records::far_of))]
fn far_of(c: u8, h: u8, l: u8) -> Instruction
    ensures { result ≡ far_of c (both h l) }
{
    let offset = signed(h, l);
    match c {
        0x50 => Instruction::Jmp { offset },
        0x51 => Instruction::Jal { offset },
        0x52 => Instruction::Jmps { offset },
        0x53 => Instruction::Jals { offset },
        _ => Instruction::Syscall { imm: both(h, l) },
    }
}

// The record of a command byte and four operand bytes; none where there is no such command or an unused byte is not
// zero. A command is a byte of the sheet and is read by ranges, as the list of commands has them (RULES 16): no enum
// stands between it and the instruction, which is one already.
#[tactic(auto, unfolding(crate::specs::Records::within, crate::specs::Records::record_of))]
pub(crate) fn record_of(c: u8, a: u8, b: u8, d: u8, e: u8) -> Option<Record>
    ensures { result ≡ record_of c a b d e }
{
    match c {
        0x00..=0x03 => line_if(zeros(a, b, d, e), plain_of(c)),
        0x10..=0x1F => line_if(e == 0, three_of(c, a, b, d)),
        0x20..=0x28 => Some(Record::Line(offset_of(c, a, b, signed(d, e)))),
        0x30..=0x33 => line_if(b == 0, half_of(c, a, both(d, e))),
        0x40..=0x43 => line_if(zeros(0, b, d, e), jump_of(c, a)),
        0x50..=0x54 => line_if(zeros(a, b, 0, 0), far_of(c, d, e)),
        0x60 => Some(Record::Line(Instruction::Unknown(both(a, b), both(d, e)))),
        0x61 => Some(Record::Pair(both(a, b), both(d, e))),
        _ => None,
    }
}
