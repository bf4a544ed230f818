// Words of 32 bits: sums that wrap, signed offsets, products, quotients, shifts, halves and cuts.
// Crate word_c exports the arithmetic of one command of the step sheet to C.
//
// Wrong programs that the promises rule out, for each function two:
// - add, sub: a sum that saturates; the operands of sub swapped.
// - and, or, xor: one in the place of another; a mask of the low half.
// - sll, srl, sra: an amount above 31 that clears the word; an amount that is not cut to 5 bits.
// - sra: zeros shifted in; a rounding toward zero.
// - slt, sltu: the signed test for the unsigned one; less or equal for less.
// - mul: the high word; a product that saturates. mulh: the unsigned high word; the low word.
// - div, rem: a quotient rounded down; a zero divisor that gives the dividend.
// - divu: the signed quotient; a zero divisor that gives all ones.
// - ldil, ldih: the two halves exchanged; the other half cleared.
// - of_signed, add_signed: the offset zero-extended; the offset in words of 4 bytes.
// - cut: one width less; the high bytes kept.
// - arithmetic: SLA as SRA; the operands exchanged.
// - checked_arithmetic: Some(0) for a command that does not exist (other_commands_0); None for 1F.
// A name in brackets is the must-fail edit that tries one.
#![tactic(auto)]

ghost use Rattle.std.specs.Prelude.{◌≡◌};
ghost use Rattle.word.specs.Command.{arithmetic32, command_of};
ghost use Rattle.word.specs.Words.{add32, and32, cut32, div32, divu32, ldih32, ldil32, mod32, mul32, mulh32};
ghost use Rattle.word.specs.Words.{offset32, or32, sll32, slt32, sltu32, sra32, srl32, sub32, word_of};
ghost use Rattle.word.specs.Words.{xor32};

// The sum, which wraps.
#[tactic(auto, unfolding(crate::specs::Words::add32))]
pub fn add(a: u32, b: u32) -> u32
    ensures { result ≡ add32 a b }
{
    a.wrapping_add(b)
}

// The difference, which wraps.
#[tactic(auto, unfolding(crate::specs::Words::sub32))]
pub fn sub(a: u32, b: u32) -> u32
    ensures { result ≡ sub32 a b }
{
    a.wrapping_sub(b)
}

// The word of a signed offset or immediate.
pub fn of_signed(offset: i16) -> u32
    ensures { result ≡ word_of offset }
{
    i32::from(offset).cast_unsigned()
}

// A base or address and a signed offset in bytes.
#[tactic(auto, unfolding(crate::specs::Words::offset32, crate::specs::Words::add32))]
pub fn add_signed(base: u32, offset: i16) -> u32
    ensures { result ≡ offset32 base offset }
{
    base.wrapping_add_signed(i32::from(offset))
}

#[tactic(auto, unfolding(crate::specs::Words::and32))]
pub fn and(a: u32, b: u32) -> u32
    ensures { result ≡ and32 a b }
{
    a & b
}

#[tactic(auto, unfolding(crate::specs::Words::or32))]
pub fn or(a: u32, b: u32) -> u32
    ensures { result ≡ or32 a b }
{
    a | b
}

#[tactic(auto, unfolding(crate::specs::Words::xor32))]
pub fn xor(a: u32, b: u32) -> u32
    ensures { result ≡ xor32 a b }
{
    a ^ b
}

// SLL, and SLA too.
#[tactic(auto, unfolding(crate::specs::Words::sll32))]
pub fn sll(a: u32, b: u32) -> u32
    ensures { result ≡ sll32 a b }
{
    a.wrapping_shl(b)
}

#[tactic(auto, unfolding(crate::specs::Words::srl32))]
pub fn srl(a: u32, b: u32) -> u32
    ensures { result ≡ srl32 a b }
{
    a.wrapping_shr(b)
}

#[tactic(auto, unfolding(crate::specs::Words::sra32))]
pub fn sra(a: u32, b: u32) -> u32
    ensures { result ≡ sra32 a b }
{
    a.cast_signed().wrapping_shr(b).cast_unsigned()
}

#[tactic(auto, unfolding(crate::specs::Words::slt32, crate::specs::Words::bit))]
pub fn slt(a: u32, b: u32) -> u32
    ensures { result ≡ slt32 a b }
{
    u32::from(a.cast_signed() < b.cast_signed())
}

#[tactic(auto, unfolding(crate::specs::Words::sltu32, crate::specs::Words::bit))]
pub fn sltu(a: u32, b: u32) -> u32
    ensures { result ≡ sltu32 a b }
{
    u32::from(a < b)
}

// The low word of the product.
#[tactic(auto, unfolding(crate::specs::Words::mul32))]
pub fn mul(a: u32, b: u32) -> u32
    ensures { result ≡ mul32 a b }
{
    a.wrapping_mul(b)
}

// The high word of the signed product. What `as` cuts fits, once it is shifted; `try_from` would test that again.
pub fn mulh(a: u32, b: u32) -> u32
    ensures { result ≡ mulh32 a b }
{
    let product = i64::from(a.cast_signed()) * i64::from(b.cast_signed());
    ((product >> 32) as i32).cast_unsigned()
}

// The signed quotient, cut toward zero; 0 for a zero divisor. The library's checked_div has none for the least number by
// -1 either, so the divisor is tested here.
#[tactic(auto, unfolding(crate::specs::Words::div32))]
pub fn div(a: u32, b: u32) -> u32
    ensures { result ≡ div32 a b }
{
    if b == 0 {
        return 0;
    }
    let quotient = a.cast_signed().wrapping_div(b.cast_signed());
    quotient.cast_unsigned()
}

// The unsigned quotient; 0 for a zero divisor.
#[tactic(auto, unfolding(crate::specs::Words::divu32))]
pub fn divu(a: u32, b: u32) -> u32
    ensures { result ≡ divu32 a b }
{
    a.checked_div(b).unwrap_or(0)
}

// The remainder of the signed division, MOD; 0 for a zero divisor. The divisor is tested as in div.
#[tactic(auto, unfolding(crate::specs::Words::mod32))]
pub fn rem(a: u32, b: u32) -> u32
    ensures { result ≡ mod32 a b }
{
    if b == 0 {
        return 0;
    }
    let rest = a.cast_signed().wrapping_rem(b.cast_signed());
    rest.cast_unsigned()
}

// LDIL: the low half replaced by the low half of `i`.
#[tactic(auto, using(crate::proofs::Halves::low_replaced), unfolding(crate::specs::Words::ldil32))]
pub fn ldil(a: u32, i: u32) -> u32
    ensures { result ≡ ldil32 a i }
{
    (a & 0xFFFF_0000) | (i & 0xFFFF)
}

// LDIH: the high half replaced by the low half of `i`.
#[tactic(auto, using(crate::proofs::Halves::high_replaced), unfolding(crate::specs::Words::ldih32))]
pub fn ldih(a: u32, i: u32) -> u32
    ensures { result ≡ ldih32 a i }
{
    (i << 16) | (a & 0xFFFF)
}

// A word cut to a width in bytes.
#[tactic(auto, using(crate::proofs::Width::whole), unfolding(crate::specs::Words::cut32))]
pub fn cut(width: u8, v: u32) -> u32
    ensures { result ≡ cut32 width v }
{
    match 1u32.checked_shl(8 * u32::from(width)) {
        Some(limit) => v % limit,
        None => v,
    }
}

// The arithmetic of the commands 10 to 1F of the step sheet; 0 for any other. The command is a number, as C hands it
// over, and any number may come.
#[tactic(auto, unfolding(crate::specs::Command::arithmetic32))]
pub fn arithmetic(command: u32, a: u32, b: u32) -> u32
    ensures { result ≡ arithmetic32 command a b }
{
    match command {
        0x10 => add(a, b),
        0x11 => sub(a, b),
        0x12 => and(a, b),
        0x13 => or(a, b),
        0x14 => xor(a, b),
        0x15 | 0x17 => sll(a, b),
        0x16 => srl(a, b),
        0x18 => sra(a, b),
        0x19 => slt(a, b),
        0x1A => sltu(a, b),
        0x1B => mul(a, b),
        0x1C => mulh(a, b),
        0x1D => div(a, b),
        0x1E => divu(a, b),
        0x1F => rem(a, b),
        _ => 0,
    }
}

// The same; None for a command that does not exist.
#[tactic(auto, unfolding(crate::specs::Command::command_of))]
pub fn checked_arithmetic(command: u32, a: u32, b: u32) -> Option<u32>
    ensures { result ≡ command_of command a b }
{
    match command {
        0x10..=0x1F => Some(arithmetic(command, a, b)),
        _ => None,
    }
}
