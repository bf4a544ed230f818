// The special registers of a run or a play: a lent table of words, with the register number as place.
ghost use Rattle.std.specs.Prelude.{◌≡◌};
ghost use Rattle.isa.specs.Inquiries.{look_up};
ghost use Rattle.sheet.specs.Sheet.{table_of};

// What the table says of the special register that is asked for: its word; past the table's end there is no such
// register.
#[tactic(auto, unfolding(isa::specs::Inquiries::look_up, crate::specs::Sheet::table_of))]
pub fn special_at(table: &[u32], inquiry: Option<u16>) -> Option<Option<u32>>
    ensures { result ≡ look_up (table_of table.now) inquiry }
{
    inquiry.map(|sr| table.get(usize::from(sr)).copied())
}
