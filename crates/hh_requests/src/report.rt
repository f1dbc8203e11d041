//! The reports that an office can be asked for.

use hh_runs::RunKey;

/// Which report is asked for.
#[derive(Clone, Copy, Debug, PartialEq, Eq)]
pub enum Report {
    /// The day report of a run.
    Day(RunKey),
    /// The results of a run, as comma-separated values.
    Results(RunKey),
    /// The balances of both accounts of every registered party, as comma-separated values.
    Balances,
}
