//! The settlement office, which answers one request after the other over its tables.
//!
//! An `Office` represents a state if its tables are those of the state, and the machine reaches it.
//! For every such state `Office::handle` and `Office::run_all` reply and change the tables as the
//! machine does: if there is none, it is only promised that a refusal changes nothing
//! (`untouched`). Two states give a party the same answers if they look the same to it
//! (`LooksAlike`): it is registered with the same key, the same runs were made, and its accounts
//! have the same rows in each run, the same postings and the same contracts in force.
//! `Office::report` writes a report only for the operator's key, and its text is the state's
//! (`kept_reports`). Refusals 90 and 91 name no row and no other place. The store's count of
//! refusals never falls, and at its greatest nothing is said of 91.
#![tactic(auto)]

mod access;
mod enquiries;
mod facts;
mod loads;
mod office;
mod report;
mod report_texts;
mod reports;
mod runs;

pub use hh_day::reached_conserve;
pub use hh_store::Tables;
pub use office::Office;
pub use report::ReportStop;
pub use report_texts::kept_reports;
