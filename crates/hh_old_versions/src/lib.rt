//! What older versions of the office did otherwise, and that each of their states goes on.
//!
//! Version 1 had one account that leads a unit for all its dates. The office also reaches each
//! state of version 1. There each request gets the answer of version 1, unless that was 39 or 40
//! (`version_one_goes_on`), and so does each row (`same_refusals`). The office accepts each history
//! that version 1 accepted (`histories_of_version_one`). Such a history has one registration for
//! each unit (`kept_by_version_one`).
#![tactic(auto)]

mod laws;

pub use laws::{histories_of_version_one, kept_by_version_one, same_refusals, version_one_goes_on};
