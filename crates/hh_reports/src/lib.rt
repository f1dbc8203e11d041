//! The reports of an office: what a run settled, and the sums of what was posted to accounts.
//!
//! `write_day_report`, `write_results` and `write_balances` write the text that is defined for a
//! run's rows or for postings, and nothing else. A `DayReportWriter`, a `ResultsWriter` and a
//! `BalancesWriter` are given one row after the other, and hold back less than a page of their
//! text. What a writer has written, with what it holds back, is the text so far of exactly these
//! rows (`HasDay`, `HasResults`, `HasBalances`). It is the beginning of the text with further rows
//! (`reports_go_on`). So a report that is cut short is a beginning of the right one.
#![tactic(auto)]

mod day_report;
mod exports;
mod fault;
mod laws;
mod page;
mod period_rows;
mod run;
mod sums;

pub use day_report::{DayReportWriter, write_day_report};
pub use exports::{BalancesWriter, ResultsWriter, write_balances, write_results};
pub use fault::ReportFault;
pub use hh_calc::AccountRow;
pub use laws::reports_go_on;
pub use run::ReportedRun;
pub use sums::AccountSums;
