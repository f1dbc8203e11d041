//! A run in its reports.

ghost use Rattle.std.specs.Prelude.{◌≡◌};
ghost use Rattle.hh_store.specs.Outputs.{reported_as};

use hh_reports::ReportedRun;
use hh_states::{RunKey, Summary};

/// A run with this summary, as its reports show it.
pub fn reported_as(run: &RunKey, summary: &Summary) -> ReportedRun
    ensures { result ≡ reported_as run.now summary.now }
{
    ReportedRun {
        date: run.date,
        kind: run.kind,
        periods: summary.periods,
    }
}
