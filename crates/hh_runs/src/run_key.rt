//! The keys of runs.

use crate::run_kind::RunKind;
use hh_time::SettlementDate;

/// The date that a run settles, and its kind. Runs are ordered by date, then by kind.
#[derive(Clone, Copy, Debug, PartialEq, Eq, PartialOrd, Ord)]
pub struct RunKey {
    pub date: SettlementDate,
    pub kind: RunKind,
}
