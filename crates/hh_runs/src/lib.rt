//! Runs: their kinds and order, their summaries, and the differences between two runs of a date.
//!
//! `next_kind` says of a run whether it is new, is there already, or is refused 50 or 51.
//! `differences` gives what a run posts: the accounts of either run whose day net differs, each
//! with its new net less its old. An account that a run doesn't have counts as 0 there. A `RunKey`
//! names a run by its date and its `RunKind`, and a `Summary` sums it up.
#![tactic(auto)]

mod changes;
mod day_net;
mod next_run;
mod order;
mod posting;
mod run_key;
mod run_kind;
mod summary;

pub use changes::differences;
pub use day_net::{DayCash, DayNet, DayNetTable};
pub use hh_names::{Pence, Ticks};
pub use next_run::NextRun;
pub use order::next_kind;
pub use posting::Posting;
pub use run_key::RunKey;
pub use run_kind::RunKind;
pub use summary::Summary;
