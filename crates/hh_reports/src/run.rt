//! The run that a report shows.

use hh_runs::RunKind;
use hh_time::SettlementDate;

/// The run that a report shows.
#[derive(Clone, Copy, Debug, PartialEq, Eq)]
pub struct ReportedRun {
    pub date: SettlementDate,
    pub kind: RunKind,
    /// How many Settlement Periods the date has.
    pub periods: u8,
}
