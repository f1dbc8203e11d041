//! The summary of a run.

use hh_names::Pence;

/// The summary of a run.
#[derive(Clone, Copy, Debug, PartialEq, Eq)]
pub struct Summary {
    /// How many Settlement Periods the date has: 46, 48 or 50.
    pub periods: u8,
    /// How many accounts the run settles: two of each party whose range holds the date, so at most
    /// 800.
    pub accounts: u16,
    /// The sum of the residuals of all periods, in pence.
    pub residual: Pence,
    /// To how many accounts the run posts something, at most 800.
    pub postings: u16,
}
