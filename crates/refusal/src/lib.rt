// Why something is refused. Each refusal has a number, by which docs/RULES.md and the programs name it.
//
// Wrong programs that the promise of `number` rules out: a number that RULES gives to none (other_number); the place of
// a refusal in the list for its number.
#![tactic(auto)]

ghost use Rattle.std.specs.Prelude.{◌≡◌};
ghost use Rattle.refusal.specs.Number.{number_of};

// What is refused, with its number. RULES 19 says when each applies.
#[derive(Clone, Copy, Debug, PartialEq, Eq)]
pub enum Refusal {
    // A register above 31.
    BadRegister = 1,
    // An offer of a kind that the tick does not want.
    BadOffer = 3,
    // A load's answer that is missing or was not asked for.
    BadAnswer = 4,
    // No such command, or an unused byte that is not zero.
    BadCommand = 5,
    // A sheet of a length that is no multiple of 5, or above 20,480 bytes.
    BadLength = 6,
    // A limit above 1,000,000.
    BadLimit = 7,
    // A preview of a sheet above 1,280 bytes.
    LongPreview = 8,
    // A preview with a limit above 10,000.
    HighPreview = 9,
    // A word of a special register that is missing or was not asked for.
    BadSpecial = 10,
    // A state, a latch or a register out of its bounds.
    OutOfBounds = 11,
    // An exception, MTSR or IRET that comes to retire.
    Faulty = 12,
    // A counter at its top.
    CounterFull = 13,
    // A log without room for the tick's events.
    LogFull = 14,
    // A list of places shorter than the number of neighbouring pairs.
    ShortList = 15,
    // A log's entry with an unknown command, a register outside 1 to 31, or a width other than 0, 1, 2, 4.
    BadEntry = 21,
    // A log that ends inside an entry.
    ShortLog = 22,
    // A wait above 1,000 ticks, or one told without its own fetch or load.
    BadWait = 24,
}

impl Refusal {
    // Its number. `as` alone reads the number of an enum's variant.
    #[tactic(auto, unfolding(crate::specs::Number::number_of))]
    pub fn number(self) -> u32
        ensures { result ≡ number_of self }
    {
        self as u32
    }
}
