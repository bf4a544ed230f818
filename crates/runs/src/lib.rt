// What is claimed of a run, with its proof; the code is crate runner. Here are the type of its report, and the report of a
// run that is refused before its first turn.
//
// Wrong programs that the promise of `Ran::refused` rules out: a refused run that reports a tick (refused_run_counts); a
// state with its registers put to 0.
#![tactic(auto)]

ghost use Rattle.std.specs.Prelude.{◌≡◌};
ghost use Rattle.runs.specs.Run.{refused_run};

use pipeline::PipelineCpu;
use refusal::Refusal;
use sheet::End;

// What the runner reports: the end, the ticks used, and the state then.
#[derive(Clone, Copy)]
pub struct Ran {
    pub end: End,
    pub ticks: u32,
    pub state: PipelineCpu,
}

impl Ran {
    // The report of a run refused before its first turn: no tick is done, and the state is the one given.
    #[tactic(auto, unfolding(crate::specs::Run::refused_run))]
    pub fn refused(refusal: Refusal, state: PipelineCpu) -> Ran
        ensures { result ≡ refused_run refusal state }
    {
        Ran {
            end: End::Refused(refusal),
            ticks: 0,
            state,
        }
    }
}
