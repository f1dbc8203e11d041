//! The registrations of units: which account leads a unit from which date to which.
//!
//! `Registrations` keeps what rows of units make of their units, one row after the other:
//! `Registrations::change_of` says what a row changes, `Registrations::put` changes exactly that,
//! or nothing if memory is refused. `Registrations::registered_lead_on` gives the account that
//! leads a unit on a date, and `Registrations::last` a unit's last registration. It takes each row
//! as it comes, accepted or not. A `LeadTable` is the part of it that the stores of an office keep.
#![tactic(auto)]

mod changes;
mod leads;
mod registrations;
mod unit_steps;

pub use changes::{FormerLead, LeadChange, UnitChange};
pub use leads::LeadTable;
pub use registrations::Registrations;
pub use unit_steps::{UnitChanges, UnitStep};
