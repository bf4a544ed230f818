// One instruction of the one-at-a-time machine.
ghost use Rattle.std.specs.Prelude.{◌≡◌};
ghost use Rattle.isa.specs.Machine.{is_barred};
ghost use Rattle.player.specs.Inner.{next_of, written};

use isa::registers::{write_cpuid, write_reg};
use isa::{Effect, Place};

// An instruction that raises an exception or is MTSR or IRET.
#[tactic(auto, unfolding(isa::specs::Machine::is_barred))]
pub(crate) fn is_barred(e: Effect) -> bool
    ensures { result ≡ is_barred e }
{
    e.marks.exception.is_some() || e.marks.mtsr.is_some() || e.marks.iret
}

// What an instruction writes: CPUID's words, and a word for its destination.
#[tactic(auto, unfolding(crate::specs::Inner::written, isa::specs::Machine::dest_of, isa::specs::Registers::write_reg))]
pub(crate) fn write(e: Effect, dest: Option<u8>, value: u32, features: u32, reg: &mut [u32; 32])
    ensures { reg.new ≡ written e dest value features reg.old }
{
    write_cpuid(e.marks.cpuid, features, reg);
    if e.alu.writes {
        write_reg(dest, value, reg);
    }
}

// Where an instruction goes.
#[tactic(auto, unfolding(crate::specs::Inner::next_of, isa::specs::Effect::after, isa::specs::Redirects::target_or, isa::specs::Redirects::mode_or))]
pub(crate) fn next(e: Effect, at: Place) -> Place
    ensures { result ≡ next_of e at }
{
    e.redirect.unwrap_or(at.after())
}
