// What an instruction names: the table of specs/Operands.antt, row by row.
ghost use Rattle.std.specs.Prelude.{◌≡◌};
ghost use Rattle.isa.specs.Operands.{bare, binary, branching, loading, operands_n, operands_of, operands_s, plain};
ghost use Rattle.isa.specs.Operands.{reads, storing, unary, writes};

use crate::encoding::short_reg_to_gpr;
use crate::{Decoded, Instruction, Operands, ShortInstruction};

// No load, no store and no branch; `n` sources, destination `d`, latency `l`.
#[tactic(auto, unfolding(crate::specs::Operands::plain))]
fn plain(a: u8, b: u8, n: u8, d: Option<u8>, l: Option<u8>) -> Operands
    ensures { result ≡ plain a b n d l }
{
    Operands {
        src_a: a,
        src_b: b,
        n_srcs: n,
        dest: d,
        is_load: false,
        is_store: false,
        latency: l,
        branch: None,
    }
}

// No source, no destination.
#[tactic(auto, unfolding(crate::specs::Operands::bare))]
fn bare() -> Operands
    ensures { result ≡ bare }
{
    plain(0, 0, 0, None, None)
}

// No source, destination `d`.
#[tactic(auto, unfolding(crate::specs::Operands::writes))]
fn writes(d: u8) -> Operands
    ensures { result ≡ writes d }
{
    plain(0, 0, 0, Some(d), None)
}

// Source `a`, destination `d`.
#[tactic(auto, unfolding(crate::specs::Operands::unary))]
fn unary(d: u8, a: u8) -> Operands
    ensures { result ≡ unary d a }
{
    plain(a, 0, 1, Some(d), None)
}

// Sources `a` and `b`, destination `d`, latency `l`.
#[tactic(auto, unfolding(crate::specs::Operands::binary))]
fn binary(l: Option<u8>, d: u8, a: u8, b: u8) -> Operands
    ensures { result ≡ binary l d a b }
{
    plain(a, b, 2, Some(d), l)
}

// Source `a` only.
#[tactic(auto, unfolding(crate::specs::Operands::reads))]
fn reads(a: u8) -> Operands
    ensures { result ≡ reads a }
{
    plain(a, 0, 1, None, None)
}

// A load from base `a` into `d`.
#[tactic(auto, unfolding(crate::specs::Operands::loading, crate::specs::Operands::unary, crate::specs::Operands::plain))]
fn loading(d: u8, a: u8) -> Operands
    ensures { result ≡ loading d a }
{
    Operands {
        is_load: true,
        ..unary(d, a)
    }
}

// A store of register `b` to address or base `a`.
#[tactic(auto, unfolding(crate::specs::Operands::storing, crate::specs::Operands::plain))]
fn storing(a: u8, b: u8) -> Operands
    ensures { result ≡ storing a b }
{
    Operands {
        is_store: true,
        ..plain(a, b, 2, None, None)
    }
}

// A conditional branch on `n` sources.
#[tactic(auto, unfolding(crate::specs::Operands::branching, crate::specs::Operands::plain))]
fn branching(a: u8, b: u8, n: u8, o: i16) -> Operands
    ensures { result ≡ branching a b n o }
{
    Operands {
        branch: Some(word::of_signed(o)),
        ..plain(a, b, n, None, None)
    }
}

impl Instruction {
    // The row of a Normal instruction. Inlined, since the check of a sheet uses a few of its fields only.
    #[inline(always)]
    #[tactic(auto, unfolding(crate::specs::Operands::operands_n))]
    pub(crate) fn operands(self) -> Operands
        ensures { result ≡ operands_n self }
    {
        match self {
            Instruction::Nop => bare(),
            Instruction::Ld { rd, base, .. } => loading(rd, base),
            Instruction::St { rd, base, .. } => storing(base, rd),
            Instruction::Add { rd, rs1, rs2 } => binary(None, rd, rs1, rs2),
            Instruction::Addi { rd, rs1, .. } => unary(rd, rs1),
            Instruction::Sub { rd, rs1, rs2 } => binary(None, rd, rs1, rs2),
            Instruction::Slt { rd, rs1, rs2 } => binary(None, rd, rs1, rs2),
            Instruction::Beq { rs1, rs2, offset } => branching(rs1, rs2, 2, offset),
            Instruction::Bne { rs1, rs2, offset } => branching(rs1, rs2, 2, offset),
            Instruction::Jmp { .. } => bare(),
            Instruction::Jal { .. } => writes(31),
            Instruction::Jr { rd } => reads(rd),
            Instruction::Jmps { .. } => bare(),
            Instruction::Jals { .. } => writes(31),
            Instruction::Jrs { rd } => reads(rd),
            Instruction::Jalr { rd } => unary(31, rd),
            Instruction::Jalrs { rd } => unary(31, rd),
            Instruction::Cpuid => bare(),
            Instruction::Halt => bare(),
            Instruction::And { rd, rs1, rs2 } => binary(None, rd, rs1, rs2),
            Instruction::Or { rd, rs1, rs2 } => binary(None, rd, rs1, rs2),
            Instruction::Xor { rd, rs1, rs2 } => binary(None, rd, rs1, rs2),
            Instruction::Sll { rd, rs1, rs2 } => binary(None, rd, rs1, rs2),
            Instruction::Srl { rd, rs1, rs2 } => binary(None, rd, rs1, rs2),
            Instruction::Sla { rd, rs1, rs2 } => binary(None, rd, rs1, rs2),
            Instruction::Sra { rd, rs1, rs2 } => binary(None, rd, rs1, rs2),
            Instruction::Sltu { rd, rs1, rs2 } => binary(None, rd, rs1, rs2),
            Instruction::Mul { rd, rs1, rs2 } => binary(
                Some(Instruction::MUL_LATENCY),
                rd,
                rs1,
                rs2,
            ),
            Instruction::Div { rd, rs1, rs2 } => binary(
                Some(Instruction::DIV_LATENCY),
                rd,
                rs1,
                rs2,
            ),
            Instruction::Mod { rd, rs1, rs2 } => binary(
                Some(Instruction::DIV_LATENCY),
                rd,
                rs1,
                rs2,
            ),
            Instruction::Mulh { rd, rs1, rs2 } => binary(
                Some(Instruction::MUL_LATENCY),
                rd,
                rs1,
                rs2,
            ),
            Instruction::Divu { rd, rs1, rs2 } => binary(
                Some(Instruction::DIV_LATENCY),
                rd,
                rs1,
                rs2,
            ),
            Instruction::Ldb { rd, base, .. } => loading(rd, base),
            Instruction::Ldh { rd, base, .. } => loading(rd, base),
            Instruction::Stb { rd, base, .. } => storing(base, rd),
            Instruction::Sth { rd, base, .. } => storing(base, rd),
            Instruction::Ldil { rd, .. } => unary(rd, rd),
            Instruction::Ldih { rd, .. } => unary(rd, rd),
            Instruction::Unknown(_, _) => bare(),
            Instruction::Iret => bare(),
            Instruction::Syscall { .. } => bare(),
            Instruction::Mfsr { rd, .. } => writes(rd),
            Instruction::Mtsr { rs, .. } => reads(rs),
        }
    }
}

impl ShortInstruction {
    // The row of a Short instruction.
    #[tactic(auto, unfolding(crate::specs::Operands::operands_s))]
    fn operands(self) -> Operands
        ensures { result ≡ operands_s self }
    {
        match self {
            ShortInstruction::Mov { rd, rs1 } => unary(short_reg_to_gpr(rd), short_reg_to_gpr(rs1)),
            ShortInstruction::Add { rd, rs1, rs2 } => binary(
                None,
                short_reg_to_gpr(rd),
                short_reg_to_gpr(rs1),
                short_reg_to_gpr(rs2),
            ),
            ShortInstruction::Addi { rd, .. } => unary(short_reg_to_gpr(rd), short_reg_to_gpr(rd)),
            ShortInstruction::Ld { rd, rs1 } => loading(
                short_reg_to_gpr(rd),
                short_reg_to_gpr(rs1),
            ),
            ShortInstruction::St { rd, rs1 } => storing(
                short_reg_to_gpr(rd),
                short_reg_to_gpr(rs1),
            ),
            ShortInstruction::Bz { rd, offset } => branching(
                short_reg_to_gpr(rd),
                0,
                1,
                i16::from(offset),
            ),
            ShortInstruction::Bnz { rd, offset } => branching(
                short_reg_to_gpr(rd),
                0,
                1,
                i16::from(offset),
            ),
            ShortInstruction::Jr { rd } => reads(short_reg_to_gpr(rd)),
            ShortInstruction::Jal { .. } => writes(31),
            ShortInstruction::Ldi { rd, .. } => writes(short_reg_to_gpr(rd)),
            ShortInstruction::Ret => bare(),
            ShortInstruction::Unknown(_) => bare(),
        }
    }
}

impl Decoded {
    // Sources, destination, load or store, latency and branch offset.
    #[tactic(auto, unfolding(crate::specs::Operands::operands_of))]
    pub fn operands(self) -> Operands
        ensures { result ≡ operands_of self }
    {
        match self {
            Decoded::Normal(i) => i.operands(),
            Decoded::Short(i) => i.operands(),
        }
    }
}
