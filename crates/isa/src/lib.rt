// The instructions of the SRC32, what each names and what it does, said once for every machine.
//
// Wrong programs that the promises rule out, for each function two. A name in brackets is the must-fail edit that
// tries one, in the code or in its definition:
// - short_reg_to_gpr: R15 for 15 (register_15_is_r15); R31 for 14.
// - is_reg: R0 let through; R31 left out.
// - read_reg: the word that stands in reg[0] for R0; 0 for R31.
// - put_reg: R0 written; R31 not written.
// - write_reg: a word for R1 where no destination is named; R0 put to 0.
// - write_cpuid: R2 written where the instruction is not CPUID; the two words exchanged.
// - Start::zero: Short mode; the user flag set.
// - RawInstr::default, Decoded::default: HALT for NOP; a Short instruction.
// - Operands::predict: every conditional branch taken; the offset added to the branch's own address.
// - Decoded::waits: 16 for a divide; a wait for DIV and none for MOD.
// - ShortInstruction::decode_short: LDI at nibble 10; JAL's offset unsigned.
// - RawInstr::decoded: halfword F001 as Unknown; NOP for every Normal instruction.
// - Decoded::operands: LDIL with no source (ldil_without_source); a latency of 4 for MUL (mul_latency_4); one of 1 for ADD
//   (add_latency_1); short ST with its operands exchanged (short_st_operands_swapped).
// - is_dest_in_bounds: 32 in bounds; out of bounds where no destination is named.
// - Operands::in_bounds: the destination not tested; a source tested only where `n_srcs` counts it.
// - Instruction::in_bounds: its first source alone tested; false for MFSR.
// - RawInstr::in_bounds: false for an unknown halfword; true for a Normal instruction with register 32.
// - RawInstr::is_of: a halfword of either mode; the two modes exchanged.
// - Decoded::in_bounds: false for a Short instruction; false for MFSR.
// - Decoded::effect: RET to the address in R31 (ret_to_r31); HALT that halts in user mode; a special register asked for
//   in user mode (asked_in_user_mode).
// - mfsr_with: 0 for no such register (absent_still_writes); the word cut to 16 bits.
// - Effect::filled: an effect that asks for nothing replaced; one that asks left as it is.
// - raises: an exception that leaves `writes` set; no exception for SYSCALL 0.
// - Mode::size: 4 for Short; 2 for Normal.
// - Mode::fall: 4 added in Short mode; a sum that stops at FFFFFFFF.
// - Place::after: the same place; Normal for every mode.
#![tactic(auto)]

mod defaults;
pub mod destinations;
pub mod effect_table;
mod encoding;
pub mod inquiries;
mod modes;
mod operand_table;
mod prediction;
mod refusals;
pub mod registers;
mod short;
mod starts;
mod waits;

// The mode of an instruction: 4 bytes long, or 2.
#[derive(Clone, Copy, Debug, Default, PartialEq, Eq)]
pub enum Mode {
    #[default]
    Normal,
    Short,
}

// An address and its mode.
#[derive(Clone, Copy, Debug, Default, PartialEq, Eq)]
pub struct Place {
    pub pc: u32,
    pub mode: Mode,
}

// What a program starts with: registers, its first instruction's place, whether it runs in user mode, the feature word.
#[derive(Clone, Copy)]
pub struct Start {
    pub reg: [u32; 32],
    pub at: Place,
    pub user: bool,
    pub features: u32,
}

// A Normal instruction. Unknown holds the high and the low half of its word.
#[derive(Clone, Copy, Default)]
pub enum Instruction {
    #[default]
    Nop,
    Ld { rd: u8, base: u8, offset: i16 },
    St { rd: u8, base: u8, offset: i16 },
    Add { rd: u8, rs1: u8, rs2: u8 },
    Addi { rd: u8, rs1: u8, imm: i16 },
    Sub { rd: u8, rs1: u8, rs2: u8 },
    Slt { rd: u8, rs1: u8, rs2: u8 },
    Beq { rs1: u8, rs2: u8, offset: i16 },
    Bne { rs1: u8, rs2: u8, offset: i16 },
    Jmp { offset: i16 },
    Jal { offset: i16 },
    Jr { rd: u8 },
    Jmps { offset: i16 },
    Jals { offset: i16 },
    Jrs { rd: u8 },
    Jalr { rd: u8 },
    Jalrs { rd: u8 },
    Cpuid,
    Halt,
    And { rd: u8, rs1: u8, rs2: u8 },
    Or { rd: u8, rs1: u8, rs2: u8 },
    Xor { rd: u8, rs1: u8, rs2: u8 },
    Sll { rd: u8, rs1: u8, rs2: u8 },
    Srl { rd: u8, rs1: u8, rs2: u8 },
    Sla { rd: u8, rs1: u8, rs2: u8 },
    Sra { rd: u8, rs1: u8, rs2: u8 },
    Sltu { rd: u8, rs1: u8, rs2: u8 },
    Mul { rd: u8, rs1: u8, rs2: u8 },
    Div { rd: u8, rs1: u8, rs2: u8 },
    Mod { rd: u8, rs1: u8, rs2: u8 },
    Mulh { rd: u8, rs1: u8, rs2: u8 },
    Divu { rd: u8, rs1: u8, rs2: u8 },
    Ldb { rd: u8, base: u8, offset: i16 },
    Ldh { rd: u8, base: u8, offset: i16 },
    Stb { rd: u8, base: u8, offset: i16 },
    Sth { rd: u8, base: u8, offset: i16 },
    Ldil { rd: u8, imm: u16 },
    Ldih { rd: u8, imm: u16 },
    Unknown(u16, u16),
    Iret,
    Syscall { imm: u16 },
    Mfsr { rd: u8, sr: u16 },
    Mtsr { rs: u8, sr: u16 },
}

impl Instruction {
    // Its length in bytes.
    pub const SIZE: u32 = 4;

    // The latency of MUL and MULH in ticks.
    pub const MUL_LATENCY: u8 = 3;

    // The latency of DIV, DIVU and MOD in ticks.
    pub const DIV_LATENCY: u8 = 16;
}

// A Short instruction. Its register numbers are those of the halfword: 15 means R31.
#[derive(Clone, Copy)]
pub enum ShortInstruction {
    Mov { rd: u8, rs1: u8 },
    Add { rd: u8, rs1: u8, rs2: u8 },
    Addi { rd: u8, imm: i8 },
    Ld { rd: u8, rs1: u8 },
    St { rd: u8, rs1: u8 },
    Bz { rd: u8, offset: i8 },
    Bnz { rd: u8, offset: i8 },
    Jr { rd: u8 },
    Jal { offset: i16 },
    Ldi { rd: u8, imm: u8 },
    Ret,
    Unknown(u16),
}

impl ShortInstruction {
    // Its length in bytes.
    pub const SIZE: u32 = 2;
}

// What a fetch brings: a Normal instruction, decoded already, or 16 bits. It and Decoded are two enums, and not one over
// the type of a Short instruction, as in the Rust (docs/DECISIONS.md).
#[derive(Clone, Copy)]
pub enum RawInstr {
    Normal(Instruction),
    Short(u16),
}

// A decoded instruction.
#[derive(Clone, Copy)]
pub enum Decoded {
    Normal(Instruction),
    Short(ShortInstruction),
}

// What a load or store asks of the memory: address, width in bytes, and a store's word cut to the width.
#[derive(Clone, Copy)]
pub enum Request {
    Load { addr: u32, width: u8 },
    Store { addr: u32, width: u8, word: u32 },
}

// An exception that an instruction raises.
#[derive(Clone, Copy)]
pub enum Exception {
    PrivilegedInstruction,
    IllegalInstruction,
    Syscall(u16),
}

// MTSR's special register number and word.
#[derive(Clone, Copy)]
pub struct Mtsr {
    pub sr: u16,
    pub value: u32,
}

// What an instruction names: its two sources (R0 where it has none), how many, its destination, whether it loads or
// stores, the latency of a multiply or divide, a conditional branch's offset as a word. The sources and their number are
// ID/EX's own fields, which takes them over one by one, so no source is an option here.
#[derive(Clone, Copy)]
pub struct Operands {
    pub src_a: u8,
    pub src_b: u8,
    pub n_srcs: u8,
    pub dest: Option<u8>,
    pub is_load: bool,
    pub is_store: bool,
    pub latency: Option<u8>,
    pub branch: Option<u32>,
}

// The word that an instruction computes. `writes`: its destination gets a word;
// `always_writes`: it asks for the write even where no destination is named. Flags, and no option: EX/MEM takes the word
// over also where none is written, and with an option each use would spell out the 0 that then stands there.
#[derive(Clone, Copy, Default)]
pub struct AluResult {
    pub value: u32,
    pub writes: bool,
    pub always_writes: bool,
}

// What an instruction asks of the memory: address, a store's word, width in bytes (0: no access), and whether it reads.
// The fields are EX/MEM's own, which takes them over one by one, so a width of 0 is no option here either.
#[derive(Clone, Copy, Default)]
pub struct Access {
    pub mem_addr: u32,
    pub store_value: u32,
    pub mem_size: u8,
    pub is_mem_read: bool,
}

// What is left to the retirement: HALT, IRET, CPUID, an exception, MTSR's word.
#[derive(Clone, Copy, Default)]
pub struct Marks {
    pub halt: bool,
    pub iret: bool,
    pub cpuid: bool,
    pub exception: Option<Exception>,
    pub mtsr: Option<Mtsr>,
}

// What an instruction does with two operand values. `redirect`: the target of one that does not go on to the next
// address; `branch_new_mode`: the mode that a jump changes to at its retirement; `inquiry`: the special register that
// MFSR asks for.
#[derive(Clone, Copy)]
pub struct Effect {
    pub access: Access,
    pub alu: AluResult,
    pub redirect: Option<Place>,
    pub branch_new_mode: Option<Mode>,
    pub marks: Marks,
    pub inquiry: Option<u16>,
}
