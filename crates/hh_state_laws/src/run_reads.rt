//! What the reading calls answer about the runs of a state.

ghost use Rattle.hh_states.specs.RunReads.{
  DayNetsFromResults,
  HoldsPostings,
  HoldsResults,
  HoldsRuns,
  HoldsSummaries,
};

/// In each state, the summary that the tables have for a date and kind is that of the run.
#[tactic(auto, using(crate::proofs::RunReadLaws::holds_summaries))]
pub fn kept_summaries()
    ensures { HoldsSummaries }
{}

/// In each state that the machine reaches, the kinds of the runs of a date in the tables are those of the
/// date's runs, in the order in which these were made.
#[tactic(auto, using(crate::proofs::RunReadLaws::holds_runs))]
pub fn kept_kinds_of_dates()
    ensures { HoldsRuns }
{}

/// In each state that the machine reaches, the rows of each run in the tables are those of the Settlement
/// Periods that it settles, by period, then by account.
#[tactic(auto, using(crate::proofs::ResultLaws::holds_results))]
pub fn kept_results()
    ensures { HoldsResults }
{}

/// In each state that the machine reaches, the sum of what `postings` answers for an account is the sum of
/// its day nets in the latest runs of all dates.
#[tactic(auto, using(crate::proofs::ResultLaws::holds_postings))]
pub fn kept_postings()
    ensures { HoldsPostings }
{}

/// In each state that the machine reaches, the sum of what an account pays by the rows of a run in the
/// tables is its day net in the run.
pub fn day_nets_from_results()
    ensures { DayNetsFromResults }
{}
