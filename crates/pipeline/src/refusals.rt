// Refusals of a state and of what a tick is given.
ghost use Rattle.std.specs.Prelude.{◌≡◌};
ghost use Rattle.stages.specs.Refusals.{faulty};
ghost use Rattle.pipeline.specs.Refusals.{checked, state_tests};
ghost use Rattle.pipeline.specs.Tick.{bad_wait, fits_offer, fits_special, given_tests, handed_back};

use crate::{Given, PipelineCpu, Ticked};
use isa::{Place, RawInstr};
use refusal::Refusal;

impl PipelineCpu {
    // 11, 12 or 13; `faulty` tells whether 12 applies, which retirement by itself tests otherwise than the tick.
    #[tactic(auto, unfolding(crate::specs::Refusals::state_tests, crate::specs::Refusals::verdict))]
    pub(crate) fn check_by(self, faulty: bool) -> Result<(), Refusal>
        ensures { result ≡ checked (state_tests faulty self) }
    {
        if self.stages.out_of_bounds() {
            return Err(Refusal::OutOfBounds);
        }
        if faulty {
            return Err(Refusal::Faulty);
        }
        if self.counts.is_full() {
            return Err(Refusal::CounterFull);
        }
        Ok(())
    }

    // The same of the tick and of asking.
    pub(crate) fn check(self) -> Result<(), Refusal>
        ensures { result ≡ checked (state_tests (faulty self.stages) self) }
    {
        self.check_by(self.stages.is_faulty())
    }

    // The next state, or the very state given where it was refused.
    #[tactic(auto, unfolding(crate::specs::Tick::handed_back))]
    pub(crate) fn handed_back(self, next: Result<PipelineCpu, Refusal>) -> Ticked
        ensures { result ≡ handed_back next self }
    {
        match next {
            Ok(state) => Ticked {
                state,
                outcome: Ok(()),
            },
            Err(refusal) => Ticked {
                state: self,
                outcome: Err(refusal),
            },
        }
    }
}

// An offer of the mode that is wanted, or none where no fetch is.
#[tactic(auto, unfolding(crate::specs::Tick::fits_offer))]
fn fits_offer(fetch: Option<Place>, offer: Option<RawInstr>) -> bool
    ensures { result ≡ fits_offer fetch offer }
{
    match (fetch, offer) {
        (Some(place), Some(raw)) => raw.is_of(place.mode),
        (None, None) => true,
        _ => false,
    }
}

// Something is said exactly where a special register is asked for.
#[tactic(auto, unfolding(crate::specs::Tick::fits_special, crate::specs::Tick::same))]
pub(crate) fn fits_special(inquiry: Option<u16>, special: Option<Option<u32>>) -> bool
    ensures { result ≡ fits_special inquiry special }
{
    inquiry.is_some() == special.is_some()
}

// A wait above 1,000 ticks, or above 0 where nothing is wanted that could wait.
#[tactic(auto, unfolding(crate::specs::Tick::bad_wait))]
fn bad_wait(wanted: bool, ticks: u16) -> bool
    ensures { result ≡ bad_wait wanted ticks }
{
    (1_000 < ticks) | (!wanted & (0 < ticks))
}

impl Given {
    // 1, 3, 4, 10 or 24; what is wanted is a fetch, a load, a special register.
    #[tactic(auto, unfolding(crate::specs::Tick::given_tests, crate::specs::Refusals::verdict, crate::specs::Tick::same, crate::specs::Tick::ok_offer))]
    pub(crate) fn check(
        self,
        fetch: Option<Place>,
        load: bool,
        inquiry: Option<u16>,
    ) -> Result<(), Refusal>
        ensures { result ≡ checked (given_tests fetch load inquiry self) }
    {
        if !self.offer.is_none_or(|raw| raw.in_bounds()) {
            return Err(Refusal::BadRegister);
        }
        if !fits_offer(fetch, self.offer) {
            return Err(Refusal::BadOffer);
        }
        if load != self.answer.is_some() {
            return Err(Refusal::BadAnswer);
        }
        if !fits_special(inquiry, self.special) {
            return Err(Refusal::BadSpecial);
        }
        if bad_wait(fetch.is_some(), self.fetch_wait) | bad_wait(load, self.load_wait) {
            return Err(Refusal::BadWait);
        }
        Ok(())
    }
}
