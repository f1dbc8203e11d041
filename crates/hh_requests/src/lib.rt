//! The requests to an office, and its replies.
//!
//! A `Request` shows a key and has an `Action`, to which the office answers a `Reply`. A `Report`
//! is what the operator may have written. They are values alone: a contract only says that a value
//! holds what it was made from (`Bytes::new`, `AccountReply::new`, `ContractsReply::new`,
//! `RunsReply::new`).
#![tactic(auto)]

mod reply;
mod report;
mod request;

pub use hh_calc::AccountRow;
pub use hh_runs::{RunKey, RunKind};
pub use reply::{AccountReply, ContractsReply, Loaded, Reply, RunsReply};
pub use report::Report;
pub use request::{Action, Bytes, Request, Upload};
