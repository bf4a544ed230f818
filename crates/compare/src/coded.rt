// The numbers of an instruction: its variant's position in the enum, and its fields in order. They are a case line's
// (tests/CASES.md), and are told apart here alone.
use crate::conversions::{low_byte, low_half};
use crate::fields::Field;
use crate::line::{Line, ToNumbers};
use crate::numbers::{FromNumbers, Malformed, Numbers};
use isa::{Instruction, ShortInstruction};

// A field is 0 where there are fewer.
#[derive(Clone, Copy)]
pub struct Coded {
    pub variant: u32,
    fields: [u32; 3],
}

impl FromNumbers for Coded {
    fn from_numbers(numbers: &mut Numbers<'_>) -> Result<Coded, Malformed> {
        Ok(Coded {
            variant: numbers.read()?,
            fields: numbers.read()?,
        })
    }
}

impl ToNumbers for Coded {
    fn to_numbers(self, line: &mut Line, at: usize) -> usize {
        let fields = self.fields;
        line.write(at, (self.variant, fields))
    }
}

impl Coded {
    fn new<A: Field, B: Field, C: Field>(variant: u32, a: A, b: B, c: C) -> Coded {
        Coded {
            variant,
            fields: [a.number(), b.number(), c.number()],
        }
    }

    // The instruction that a function makes of the fields.
    fn read<A: Field, B: Field, C: Field, F>(self, of: F) -> Result<Instruction, Malformed>
    where
        F: FnOnce(A, B, C) -> Instruction,
        requires { F.IsAlwaysCallable of }
    {
        let [a, b, c] = self.fields;
        Ok(of(A::of(a)?, B::of(b)?, C::of(c)?))
    }
}

impl From<Instruction> for Coded {
    fn from(instruction: Instruction) -> Coded {
        match instruction {
            Instruction::Nop => Coded::new(0x00, (), (), ()),
            Instruction::Ld { rd, base, offset } => Coded::new(0x01, rd, base, offset),
            Instruction::St { rd, base, offset } => Coded::new(0x02, rd, base, offset),
            Instruction::Add { rd, rs1, rs2 } => Coded::new(0x03, rd, rs1, rs2),
            Instruction::Addi { rd, rs1, imm } => Coded::new(0x04, rd, rs1, imm),
            Instruction::Sub { rd, rs1, rs2 } => Coded::new(0x05, rd, rs1, rs2),
            Instruction::Slt { rd, rs1, rs2 } => Coded::new(0x06, rd, rs1, rs2),
            Instruction::Beq { rs1, rs2, offset } => Coded::new(0x07, rs1, rs2, offset),
            Instruction::Bne { rs1, rs2, offset } => Coded::new(0x08, rs1, rs2, offset),
            Instruction::Jmp { offset } => Coded::new(0x09, offset, (), ()),
            Instruction::Jal { offset } => Coded::new(0x0A, offset, (), ()),
            Instruction::Jr { rd } => Coded::new(0x0B, rd, (), ()),
            Instruction::Jmps { offset } => Coded::new(0x0C, offset, (), ()),
            Instruction::Jals { offset } => Coded::new(0x0D, offset, (), ()),
            Instruction::Jrs { rd } => Coded::new(0x0E, rd, (), ()),
            Instruction::Jalr { rd } => Coded::new(0x0F, rd, (), ()),
            Instruction::Jalrs { rd } => Coded::new(0x10, rd, (), ()),
            Instruction::Cpuid => Coded::new(0x11, (), (), ()),
            Instruction::Halt => Coded::new(0x12, (), (), ()),
            Instruction::And { rd, rs1, rs2 } => Coded::new(0x13, rd, rs1, rs2),
            Instruction::Or { rd, rs1, rs2 } => Coded::new(0x14, rd, rs1, rs2),
            Instruction::Xor { rd, rs1, rs2 } => Coded::new(0x15, rd, rs1, rs2),
            Instruction::Sll { rd, rs1, rs2 } => Coded::new(0x16, rd, rs1, rs2),
            Instruction::Srl { rd, rs1, rs2 } => Coded::new(0x17, rd, rs1, rs2),
            Instruction::Sla { rd, rs1, rs2 } => Coded::new(0x18, rd, rs1, rs2),
            Instruction::Sra { rd, rs1, rs2 } => Coded::new(0x19, rd, rs1, rs2),
            Instruction::Sltu { rd, rs1, rs2 } => Coded::new(0x1A, rd, rs1, rs2),
            Instruction::Mul { rd, rs1, rs2 } => Coded::new(0x1B, rd, rs1, rs2),
            Instruction::Div { rd, rs1, rs2 } => Coded::new(0x1C, rd, rs1, rs2),
            Instruction::Mod { rd, rs1, rs2 } => Coded::new(0x1D, rd, rs1, rs2),
            Instruction::Mulh { rd, rs1, rs2 } => Coded::new(0x1E, rd, rs1, rs2),
            Instruction::Divu { rd, rs1, rs2 } => Coded::new(0x1F, rd, rs1, rs2),
            Instruction::Ldb { rd, base, offset } => Coded::new(0x20, rd, base, offset),
            Instruction::Ldh { rd, base, offset } => Coded::new(0x21, rd, base, offset),
            Instruction::Stb { rd, base, offset } => Coded::new(0x22, rd, base, offset),
            Instruction::Sth { rd, base, offset } => Coded::new(0x23, rd, base, offset),
            Instruction::Ldil { rd, imm } => Coded::new(0x24, rd, imm, ()),
            Instruction::Ldih { rd, imm } => Coded::new(0x25, rd, imm, ()),
            Instruction::Unknown(high, low) => Coded::new(0x26, high, low, ()),
            Instruction::Iret => Coded::new(0x27, (), (), ()),
            Instruction::Syscall { imm } => Coded::new(0x28, imm, (), ()),
            Instruction::Mfsr { rd, sr } => Coded::new(0x29, rd, sr, ()),
            Instruction::Mtsr { rs, sr } => Coded::new(0x2A, rs, sr, ()),
        }
    }
}

impl TryFrom<Coded> for Instruction {
    type Error = Malformed;

    fn try_from(coded: Coded) -> Result<Instruction, Malformed> {
        match coded.variant {
            0x00 => coded.read(|(), (), ()| Instruction::Nop),
            0x01 => coded.read(|rd, base, offset| Instruction::Ld { rd, base, offset }),
            0x02 => coded.read(|rd, base, offset| Instruction::St { rd, base, offset }),
            0x03 => coded.read(|rd, rs1, rs2| Instruction::Add { rd, rs1, rs2 }),
            0x04 => coded.read(|rd, rs1, imm| Instruction::Addi { rd, rs1, imm }),
            0x05 => coded.read(|rd, rs1, rs2| Instruction::Sub { rd, rs1, rs2 }),
            0x06 => coded.read(|rd, rs1, rs2| Instruction::Slt { rd, rs1, rs2 }),
            0x07 => coded.read(|rs1, rs2, offset| Instruction::Beq { rs1, rs2, offset }),
            0x08 => coded.read(|rs1, rs2, offset| Instruction::Bne { rs1, rs2, offset }),
            0x09 => coded.read(|offset, (), ()| Instruction::Jmp { offset }),
            0x0A => coded.read(|offset, (), ()| Instruction::Jal { offset }),
            0x0B => coded.read(|rd, (), ()| Instruction::Jr { rd }),
            0x0C => coded.read(|offset, (), ()| Instruction::Jmps { offset }),
            0x0D => coded.read(|offset, (), ()| Instruction::Jals { offset }),
            0x0E => coded.read(|rd, (), ()| Instruction::Jrs { rd }),
            0x0F => coded.read(|rd, (), ()| Instruction::Jalr { rd }),
            0x10 => coded.read(|rd, (), ()| Instruction::Jalrs { rd }),
            0x11 => coded.read(|(), (), ()| Instruction::Cpuid),
            0x12 => coded.read(|(), (), ()| Instruction::Halt),
            0x13 => coded.read(|rd, rs1, rs2| Instruction::And { rd, rs1, rs2 }),
            0x14 => coded.read(|rd, rs1, rs2| Instruction::Or { rd, rs1, rs2 }),
            0x15 => coded.read(|rd, rs1, rs2| Instruction::Xor { rd, rs1, rs2 }),
            0x16 => coded.read(|rd, rs1, rs2| Instruction::Sll { rd, rs1, rs2 }),
            0x17 => coded.read(|rd, rs1, rs2| Instruction::Srl { rd, rs1, rs2 }),
            0x18 => coded.read(|rd, rs1, rs2| Instruction::Sla { rd, rs1, rs2 }),
            0x19 => coded.read(|rd, rs1, rs2| Instruction::Sra { rd, rs1, rs2 }),
            0x1A => coded.read(|rd, rs1, rs2| Instruction::Sltu { rd, rs1, rs2 }),
            0x1B => coded.read(|rd, rs1, rs2| Instruction::Mul { rd, rs1, rs2 }),
            0x1C => coded.read(|rd, rs1, rs2| Instruction::Div { rd, rs1, rs2 }),
            0x1D => coded.read(|rd, rs1, rs2| Instruction::Mod { rd, rs1, rs2 }),
            0x1E => coded.read(|rd, rs1, rs2| Instruction::Mulh { rd, rs1, rs2 }),
            0x1F => coded.read(|rd, rs1, rs2| Instruction::Divu { rd, rs1, rs2 }),
            0x20 => coded.read(|rd, base, offset| Instruction::Ldb { rd, base, offset }),
            0x21 => coded.read(|rd, base, offset| Instruction::Ldh { rd, base, offset }),
            0x22 => coded.read(|rd, base, offset| Instruction::Stb { rd, base, offset }),
            0x23 => coded.read(|rd, base, offset| Instruction::Sth { rd, base, offset }),
            0x24 => coded.read(|rd, imm, ()| Instruction::Ldil { rd, imm }),
            0x25 => coded.read(|rd, imm, ()| Instruction::Ldih { rd, imm }),
            0x26 => coded.read(|high, low, ()| Instruction::Unknown(high, low)),
            0x27 => coded.read(|(), (), ()| Instruction::Iret),
            0x28 => coded.read(|imm, (), ()| Instruction::Syscall { imm }),
            0x29 => coded.read(|rd, sr, ()| Instruction::Mfsr { rd, sr }),
            0x2A => coded.read(|rs, sr, ()| Instruction::Mtsr { rs, sr }),
            _ => Err(Malformed),
        }
    }
}

impl From<ShortInstruction> for Coded {
    fn from(instruction: ShortInstruction) -> Coded {
        match instruction {
            ShortInstruction::Mov { rd, rs1 } => Coded::new(0x0, rd, rs1, ()),
            ShortInstruction::Add { rd, rs1, rs2 } => Coded::new(0x1, rd, rs1, rs2),
            ShortInstruction::Addi { rd, imm } => Coded::new(0x2, rd, imm, ()),
            ShortInstruction::Ld { rd, rs1 } => Coded::new(0x3, rd, rs1, ()),
            ShortInstruction::St { rd, rs1 } => Coded::new(0x4, rd, rs1, ()),
            ShortInstruction::Bz { rd, offset } => Coded::new(0x5, rd, offset, ()),
            ShortInstruction::Bnz { rd, offset } => Coded::new(0x6, rd, offset, ()),
            ShortInstruction::Jr { rd } => Coded::new(0x7, rd, (), ()),
            ShortInstruction::Jal { offset } => Coded::new(0x8, offset, (), ()),
            ShortInstruction::Ldi { rd, imm } => Coded::new(0x9, rd, imm, ()),
            ShortInstruction::Ret => Coded::new(0xA, (), (), ()),
            ShortInstruction::Unknown(half) => Coded::new(0xB, half, (), ()),
        }
    }
}

// Fields are cut to what they can be.
impl From<Coded> for ShortInstruction {
    fn from(coded: Coded) -> ShortInstruction {
        let [a, b, c] = coded.fields;
        let (rd, rs1, rs2) = (low_byte(a), low_byte(b), low_byte(c));
        let signed = rs1.cast_signed();
        match coded.variant {
            0x0 => ShortInstruction::Mov { rd, rs1 },
            0x1 => ShortInstruction::Add { rd, rs1, rs2 },
            0x2 => ShortInstruction::Addi { rd, imm: signed },
            0x3 => ShortInstruction::Ld { rd, rs1 },
            0x4 => ShortInstruction::St { rd, rs1 },
            0x5 => ShortInstruction::Bz { rd, offset: signed },
            0x6 => ShortInstruction::Bnz { rd, offset: signed },
            0x7 => ShortInstruction::Jr { rd },
            0x8 => ShortInstruction::Jal {
                offset: low_half(a).cast_signed(),
            },
            0x9 => ShortInstruction::Ldi { rd, imm: rs1 },
            0xA => ShortInstruction::Ret,
            _ => ShortInstruction::Unknown(low_half(a)),
        }
    }
}
