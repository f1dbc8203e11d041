//! Settlement Periods: half hours by their date and number.

use hh_names::PeriodNumber;
use hh_time::SettlementDate;

/// A Settlement Period: a date with the number of one of its half hours (profile). Settlement Periods
/// are ordered by date, then by number.
#[derive(Clone, Copy, Debug, PartialEq, Eq, PartialOrd, Ord)]
pub struct SettlementPeriod {
    pub date: SettlementDate,
    pub period: PeriodNumber,
}
