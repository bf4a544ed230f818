// What an instruction does with two operand values: the table of specs/Effect.antt, row by row.
ghost use Rattle.std.specs.Prelude.{◌≡◌};
ghost use Rattle.word.specs.Words.{offset32};
ghost use Rattle.isa.specs.Effect.{branches, effect_n, effect_of, effect_s, gives, goes_by, goes_on, identifies};
ghost use Rattle.isa.specs.Effect.{inquires, jumps, links, marked, nothing};
ghost use Rattle.isa.specs.Effect.{privileged, raises, reaches, resumes, sets, stops, written};

use crate::{
    Access, AluResult, Decoded, Effect, Exception, Instruction, Marks, Mode, Mtsr, Place,
    ShortInstruction,
};

// The word `v` for the destination; `always`: asked for even where no destination is named.
#[tactic(auto, unfolding(crate::specs::Effect::written))]
fn written(v: u32, always: bool) -> AluResult
    ensures { result ≡ written v always }
{
    AluResult {
        value: v,
        writes: true,
        always_writes: always,
    }
}

// A result and an access, and on to the next address.
#[tactic(auto, unfolding(crate::specs::Effect::goes_on, crate::specs::Effect::no_marks))]
fn goes_on(alu: AluResult, access: Access) -> Effect
    ensures { result ≡ goes_on alu access }
{
    Effect {
        alu,
        access,
        redirect: None,
        branch_new_mode: None,
        marks: Marks::default(),
        inquiry: None,
    }
}

// A result, and the way `redirect`; `n`: the mode that it changes to.
#[tactic(auto, unfolding(crate::specs::Effect::goes_by, crate::specs::Effect::no_access, crate::specs::Effect::no_marks))]
fn goes_by(alu: AluResult, redirect: Option<Place>, n: Option<Mode>) -> Effect
    ensures { result ≡ goes_by alu redirect n }
{
    Effect {
        alu,
        access: Access::default(),
        redirect,
        branch_new_mode: n,
        marks: Marks::default(),
        inquiry: None,
    }
}

// Nothing but marks.
#[tactic(auto, unfolding(crate::specs::Effect::marked, crate::specs::Effect::no_result, crate::specs::Effect::no_access))]
fn marked(marks: Marks) -> Effect
    ensures { result ≡ marked marks }
{
    Effect {
        alu: AluResult::default(),
        access: Access::default(),
        redirect: None,
        branch_new_mode: None,
        marks,
        inquiry: None,
    }
}

// NOP.
#[tactic(auto, unfolding(crate::specs::Effect::nothing, crate::specs::Effect::no_marks))]
fn nothing() -> Effect
    ensures { result ≡ nothing }
{
    marked(Marks::default())
}

// The destination gets `v`.
#[tactic(auto, unfolding(crate::specs::Effect::gives, crate::specs::Effect::no_access))]
pub(crate) fn gives(v: u32) -> Effect
    ensures { result ≡ gives v }
{
    goes_on(written(v, false), Access::default())
}

// A load (`l`) of width `w` at address `a`, or a store of `v` there.
#[tactic(auto, unfolding(crate::specs::Effect::reaches))]
fn reaches(l: bool, w: u8, a: u32, v: u32) -> Effect
    ensures { result ≡ reaches l w a v }
{
    let alu = AluResult {
        value: 0,
        writes: l,
        always_writes: l,
    };
    let access = Access {
        mem_addr: a,
        store_value: v,
        mem_size: w,
        is_mem_read: l,
    };
    goes_on(alu, access)
}

// A conditional branch by offset `o` from `n`, where `c` holds.
#[tactic(auto, unfolding(crate::specs::Effect::branches, crate::specs::Effect::no_result))]
fn branches(c: bool, n: u32, o: i16, m: Mode) -> Effect
    ensures { result ≡ branches c (offset32 n o) m }
{
    let target = Place {
        pc: word::add_signed(n, o),
        mode: m,
    };
    goes_by(AluResult::default(), c.then_some(target), None)
}

// A jump to `q` in mode `m`; `n`: the mode that it changes to. Address and mode come apart, here and in
// `links`, as the table's rows have them.
#[tactic(auto, unfolding(crate::specs::Effect::jumps, crate::specs::Effect::no_result))]
fn jumps(q: u32, m: Mode, n: Option<Mode>) -> Effect
    ensures { result ≡ jumps q m n }
{
    goes_by(AluResult::default(), Some(Place { pc: q, mode: m }), n)
}

// A jump that leaves the address `v` of the next instruction.
#[tactic(auto, unfolding(crate::specs::Effect::links))]
fn links(v: u32, q: u32, m: Mode, n: Option<Mode>) -> Effect
    ensures { result ≡ links v q m n }
{
    goes_by(written(v, true), Some(Place { pc: q, mode: m }), n)
}

// HALT.
#[tactic(auto, unfolding(crate::specs::Effect::stops, crate::specs::Effect::no_marks))]
fn stops() -> Effect
    ensures { result ≡ stops }
{
    marked(Marks {
        halt: true,
        ..Marks::default()
    })
}

// IRET.
#[tactic(auto, unfolding(crate::specs::Effect::resumes, crate::specs::Effect::no_marks))]
fn resumes() -> Effect
    ensures { result ≡ resumes }
{
    marked(Marks {
        iret: true,
        ..Marks::default()
    })
}

// CPUID.
#[tactic(auto, unfolding(crate::specs::Effect::identifies, crate::specs::Effect::no_marks))]
fn identifies() -> Effect
    ensures { result ≡ identifies }
{
    marked(Marks {
        cpuid: true,
        ..Marks::default()
    })
}

// An exception, where one is raised.
#[tactic(auto, unfolding(crate::specs::Effect::raises, crate::specs::Effect::no_marks))]
pub fn raises(e: Option<Exception>) -> Effect
    ensures { result ≡ raises e }
{
    marked(Marks {
        exception: e,
        ..Marks::default()
    })
}

// MTSR: word `v` for special register `sr`.
#[tactic(auto, unfolding(crate::specs::Effect::sets, crate::specs::Effect::no_marks))]
fn sets(sr: u16, v: u32) -> Effect
    ensures { result ≡ sets sr v }
{
    marked(Marks {
        mtsr: Some(Mtsr { sr, value: v }),
        ..Marks::default()
    })
}

// MFSR: the word of special register `sr` is asked for, and nothing else is done.
#[tactic(auto, unfolding(crate::specs::Effect::inquires, crate::specs::Effect::nothing, crate::specs::Effect::marked))]
fn inquires(sr: u16) -> Effect
    ensures { result ≡ inquires sr }
{
    Effect {
        inquiry: Some(sr),
        ..nothing()
    }
}

// In user mode a privileged instruction raises an exception.
#[tactic(auto, unfolding(crate::specs::Effect::privileged))]
fn privileged(user: bool, e: Effect) -> Effect
    ensures { result ≡ privileged user e }
{
    if user {
        return raises(Some(Exception::PrivilegedInstruction));
    }
    e
}

impl Instruction {
    // `n` is the address after the instruction.
    #[tactic(auto, unfolding(crate::specs::Effect::effect_n))]
    fn effect(self, user: bool, n: u32, a: u32, b: u32) -> Effect
        ensures { result ≡ effect_n user self n a b }
    {
        match self {
            Instruction::Nop => nothing(),
            Instruction::Ld { offset, .. } => reaches(true, 4, word::add_signed(a, offset), 0),
            Instruction::St { offset, .. } => reaches(false, 4, word::add_signed(a, offset), b),
            Instruction::Add { .. } => gives(word::add(a, b)),
            Instruction::Addi { imm, .. } => gives(word::add_signed(a, imm)),
            Instruction::Sub { .. } => gives(word::sub(a, b)),
            Instruction::Slt { .. } => gives(word::slt(a, b)),
            Instruction::Beq { offset, .. } => branches(a == b, n, offset, Mode::Normal),
            Instruction::Bne { offset, .. } => branches(a != b, n, offset, Mode::Normal),
            Instruction::Jmp { offset } => jumps(word::add_signed(n, offset), Mode::Normal, None),
            Instruction::Jal { offset } => links(
                n,
                word::add_signed(n, offset),
                Mode::Normal,
                None,
            ),
            Instruction::Jr { .. } => jumps(a, Mode::Normal, None),
            Instruction::Jmps { offset } => jumps(
                word::add_signed(n, offset),
                Mode::Short,
                Some(Mode::Short),
            ),
            Instruction::Jals { offset } => links(
                n,
                word::add_signed(n, offset),
                Mode::Short,
                Some(Mode::Short),
            ),
            Instruction::Jrs { .. } => jumps(a, Mode::Short, Some(Mode::Short)),
            Instruction::Jalr { .. } => links(n, a, Mode::Normal, None),
            Instruction::Jalrs { .. } => links(n, a, Mode::Short, Some(Mode::Short)),
            Instruction::Cpuid => identifies(),
            Instruction::Halt => privileged(user, stops()),
            Instruction::And { .. } => gives(word::and(a, b)),
            Instruction::Or { .. } => gives(word::or(a, b)),
            Instruction::Xor { .. } => gives(word::xor(a, b)),
            Instruction::Sll { .. } => gives(word::sll(a, b)),
            Instruction::Srl { .. } => gives(word::srl(a, b)),
            Instruction::Sla { .. } => gives(word::sll(a, b)),
            Instruction::Sra { .. } => gives(word::sra(a, b)),
            Instruction::Sltu { .. } => gives(word::sltu(a, b)),
            Instruction::Mul { .. } => gives(word::mul(a, b)),
            Instruction::Div { .. } => gives(word::div(a, b)),
            Instruction::Mod { .. } => gives(word::rem(a, b)),
            Instruction::Mulh { .. } => gives(word::mulh(a, b)),
            Instruction::Divu { .. } => gives(word::divu(a, b)),
            Instruction::Ldb { offset, .. } => reaches(true, 1, word::add_signed(a, offset), 0),
            Instruction::Ldh { offset, .. } => reaches(true, 2, word::add_signed(a, offset), 0),
            Instruction::Stb { offset, .. } => reaches(false, 1, word::add_signed(a, offset), b),
            Instruction::Sth { offset, .. } => reaches(false, 2, word::add_signed(a, offset), b),
            Instruction::Ldil { imm, .. } => gives(word::ldil(a, u32::from(imm))),
            Instruction::Ldih { imm, .. } => gives(word::ldih(a, u32::from(imm))),
            Instruction::Unknown(_, _) => raises(Some(Exception::IllegalInstruction)),
            Instruction::Iret => privileged(user, resumes()),
            Instruction::Syscall { imm } => raises(Some(Exception::Syscall(imm))),
            Instruction::Mfsr { sr, .. } => privileged(user, inquires(sr)),
            Instruction::Mtsr { sr, .. } => privileged(user, sets(sr, a)),
        }
    }
}

impl ShortInstruction {
    // `n` is the address after the instruction.
    #[tactic(auto, unfolding(crate::specs::Effect::effect_s))]
    fn effect(self, n: u32, a: u32, b: u32) -> Effect
        ensures { result ≡ effect_s self n a b }
    {
        match self {
            ShortInstruction::Mov { .. } => gives(a),
            ShortInstruction::Add { .. } => gives(word::add(a, b)),
            ShortInstruction::Addi { imm, .. } => gives(word::add_signed(a, i16::from(imm))),
            ShortInstruction::Ld { .. } => reaches(true, 4, a, 0),
            ShortInstruction::St { .. } => reaches(false, 4, a, b),
            ShortInstruction::Bz { offset, .. } => branches(
                a == 0,
                n,
                i16::from(offset),
                Mode::Short,
            ),
            ShortInstruction::Bnz { offset, .. } => branches(
                a != 0,
                n,
                i16::from(offset),
                Mode::Short,
            ),
            ShortInstruction::Jr { .. } => jumps(a, Mode::Short, None),
            ShortInstruction::Jal { offset } => links(
                n,
                word::add_signed(n, offset),
                Mode::Short,
                None,
            ),
            ShortInstruction::Ldi { imm, .. } => gives(u32::from(imm)),
            ShortInstruction::Ret => jumps(n, Mode::Normal, Some(Mode::Normal)),
            ShortInstruction::Unknown(_) => raises(Some(Exception::IllegalInstruction)),
        }
    }
}

impl Decoded {
    // Result, request, redirect and exception, for the instruction at `pc`.
    #[tactic(auto, unfolding(crate::specs::Effect::effect_of))]
    pub fn effect(self, user: bool, pc: u32, a: u32, b: u32) -> Effect
        ensures { result ≡ effect_of user self pc a b }
    {
        match self {
            Decoded::Normal(i) => i.effect(user, Mode::Normal.fall(pc), a, b),
            Decoded::Short(i) => i.effect(Mode::Short.fall(pc), a, b),
        }
    }
}
