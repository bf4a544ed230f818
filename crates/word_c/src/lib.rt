// The arithmetic of one command of the step sheet for C, in a static library.
//
// Wrong programs that the promise rules out: the two operands exchanged; 0 as the refusal of a command that does not
// exist.
#![tactic(auto)]

ghost use Rattle.std.specs.Prelude.{◌≡◌};
ghost use Rattle.word.specs.Command.{command32};

// What the export answers for a command that does not exist: refusal 5, above every word.
const NO_SUCH_COMMAND: u64 = 4_294_967_301;

// uint64_t src32_alu(uint32_t command, uint32_t a, uint32_t b): the result, or 4,294,967,301, which means refusal 5.
#[tactic(auto, unfolding(word::specs::Command::command_of, word::specs::Command::command32))]
#[unsafe(no_mangle)]
pub extern "C" fn src32_alu(command: u32, a: u32, b: u32) -> u64
    ensures { result ≡ command32 command a b }
{
    word::checked_arithmetic(command, a, b).map_or(NO_SUCH_COMMAND, u64::from)
}
