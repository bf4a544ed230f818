// Instructions kept decoded, so that a loop decodes each of its instructions once.
ghost use Rattle.std.specs.Prelude.{◌≡◌, All};
ghost use Rattle.player.specs.Inner.{IsOwn, effect_in, slot_at};

use crate::Slot;
use isa::registers::read_reg;
use isa::{Effect, Place};
use sheet::offer::offer_at;
use sheet::specials::special_at;

// How many are kept. All are there from the start: with an `Option` for each, an instruction takes 99, 100, 96, 99 machine
// instructions on add, muldiv, memory, short of the bench, and not 94, 95, 91, 94.
pub(crate) const SLOTS: usize = 512;

impl Slot {
    // The slot of a place. It stays a call, since a play's slots are filled faster from a slot in memory.
    #[inline(never)]
    #[tactic(auto, unfolding(crate::specs::Inner::slot_at, crate::specs::Inner::slot_of))]
    pub(crate) fn at(sheet: &[u8], at: Place) -> Slot
        ensures { result ≡ slot_at sheet.now at.pc at.mode }
    {
        let instr = offer_at(sheet, at).decoded();
        let operands = instr.operands();
        Slot {
            at,
            instr,
            src_a: operands.src_a,
            src_b: operands.src_b,
            dest: operands.dest,
            is_load: operands.is_load,
        }
    }

    // What its instruction does with the registers and a table of special registers.
    #[tactic(auto, unfolding(crate::specs::Inner::effect_in, crate::specs::Inner::open_in))]
    pub(crate) fn effect(self, user: bool, table: &[u32], reg: &[u32; 32]) -> Effect
        ensures { result ≡ effect_in user table.now self reg.now }
    {
        let a = read_reg(reg, self.src_a);
        let b = read_reg(reg, self.src_b);
        let e = self.instr.effect(user, self.at.pc, a, b);
        e.filled(special_at(table, e.inquiry))
    }
}

// The slot of a place; where another stands in its stead, it is put there first. `as`, since the library has no `From` of
// 32 bits for `usize`.
pub(crate) fn slot_in(slots: &mut [Slot; SLOTS], sheet: &[u8], at: Place) -> Slot
    requires { All (IsOwn sheet.now) slots.old }
    ensures slot { result ≡ slot_at sheet.now at.pc at.mode }
    ensures kept { All (IsOwn sheet.now) slots.new }
{
    let k = at.pc as usize / 2 % SLOTS;
    if slots[k].at != at {
        slots[k] = Slot::at(sheet, at);
    }
    slots[k]
}
