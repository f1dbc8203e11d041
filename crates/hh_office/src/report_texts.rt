//! The reports that the tables give are those of the state.

ghost use Rattle.hh_office.specs.ReportTexts.{HoldsReports};

use hh_day::{kept_postings, kept_results, kept_summaries};

/// In each state that the machine reaches, the day reports, the results of runs and the balances of parties
/// that the tables give are those of the state.
pub fn kept_reports()
    ensures { HoldsReports }
{
    // These do nothing, but each carries a law for the proof.
    kept_summaries();
    kept_results();
    kept_postings();
}
