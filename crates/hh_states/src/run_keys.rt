//! The keys of what is kept of runs.

use hh_rules::{Account, PeriodNumber, UnitId};
use hh_runs::RunKey;

/// The key of a result: an account in a Settlement Period of a run. Ordered by run, then by period, then
/// by account.
#[derive(Clone, Copy, Debug, PartialEq, Eq, PartialOrd, Ord)]
pub struct ResultKey {
    pub run: RunKey,
    pub period: PeriodNumber,
    pub account: Account,
}

/// The key of a credit: an account that is credited from a unit in a Settlement Period of a run. Ordered
/// by run, then by period, then by the bytes of the unit's id, then by account.
#[derive(Clone, Copy, Debug, PartialEq, Eq, PartialOrd, Ord)]
pub struct CreditKey {
    pub run: RunKey,
    pub period: PeriodNumber,
    pub unit: UnitId,
    pub account: Account,
}

/// The key of a posting: an account to which a run posts. Ordered by run, then by account.
#[derive(Clone, Copy, Debug, PartialEq, Eq, PartialOrd, Ord)]
pub struct PostingKey {
    pub run: RunKey,
    pub account: Account,
}
