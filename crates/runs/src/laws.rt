//! Theorems about runs, each the contract of a function.
ghost use Rattle.runs.specs.Runs.{CallsLawful, RefusalsKeep, RunsLawful, RunsToCloseLawful, TalliesAddUp};
ghost use Rattle.runs.specs.Worked.{WorkedRun};

use paging::format::PageFormat;
use policies::policy::EvictionPolicy;

/// Whatever led to its state, each call answers by the laws, and leads on to its next state.
pub fn calls_lawful<F: PageFormat, P: EvictionPolicy>()
    ensures { CallsLawful F.PageFormat.format P.EvictionPolicy.rule }
{}

/// From an opening on, whatever the calls and their order, all answers obey the laws.
#[tactic(auto, using(crate::proofs::Wholes::runs_lawful))]
pub fn runs_lawful<F: PageFormat, P: EvictionPolicy>()
    ensures { RunsLawful F.PageFormat.format P.EvictionPolicy.rule }
{}

/// The same where no call is made after the one that closes the run.
#[tactic(auto, using(crate::proofs::Wholes::runs_to_close_lawful))]
pub fn runs_to_close_lawful<F: PageFormat, P: EvictionPolicy>()
    ensures { RunsToCloseLawful F.PageFormat.format P.EvictionPolicy.rule }
{}

/// At every point of a run the counted calls are the hits and the exits.
#[tactic(auto, using(crate::proofs::Wholes::tallies_add_up))]
pub fn tallies_add_up<F: PageFormat, P: EvictionPolicy>()
    ensures { TalliesAddUp F.PageFormat.format P.EvictionPolicy.rule }
{}

/// A refused call changes nothing.
#[tactic(auto, using(crate::proofs::Wholes::refusals_keep))]
pub fn refusals_keep<F: PageFormat, P: EvictionPolicy>()
    ensures { RefusalsKeep F.PageFormat.format P.EvictionPolicy.rule }
{}

/// A worked run comes out as it should.
pub fn worked_run()
    ensures { WorkedRun }
{}
