//! Settlement Periods that a new run may take over as the latest run of their date settled them.
//!
//! `DayBeside` is what a store keeps of a date beside its rows. `DayBeside::same_since` gives a
//! Settlement Period as the latest run settled it, only if that run had the period and settled it
//! for the accounts that the date has now, and nothing has touched the period since. That it gives
//! the period wherever this is so is only tested.
#![tactic(auto)]

mod day_beside;
mod same_since;

pub use day_beside::DayBeside;
