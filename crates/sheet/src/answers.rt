// The load answers of a run.
ghost use Rattle.std.specs.Prelude.{◌≡◌, slice_index};
ghost use Rattle.sheet.specs.Turns.{used_after};

// Answer k; 0 where there is none, which is not looked at: an option would only be taken apart by the same 0.
pub fn answer_at(answers: &[u32], k: usize) -> u32
    ensures { result ≡ slice_index answers.now k }
{
    answers.get(k).copied().unwrap_or(0)
}

// How many answers are used behind a load, and behind what is none, of so many.
#[tactic(auto, unfolding(crate::specs::Turns::used_after))]
pub fn used_after(loads: bool, k: usize, count: usize) -> usize
    ensures { result ≡ used_after loads k count }
{
    if loads && k < count { k + 1 } else { k }
}
