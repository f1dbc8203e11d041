//! The settlement of one Settlement Period.
//!
//! `settle_period` gives the figures and the share of each account, the credits from each unit and
//! the residual, as the formulas define them (`settled`). Contracts sum to zero, the credits of
//! each unit to its loss-adjusted volume, and charges and shares together to zero (`sums`). No
//! other split of the residual departs less from the quotas (`least`). Only periods that are ready
//! are settled (`PeriodData::is_ready`). 55 comes exactly where a limit is passed (`within`,
//! `too_large`). Contracts are the volumes in force, or the net volume of each account: a period
//! settles to the same by both, and passes a limit by both or by neither
//! (`hh_state_laws::nets_settle_alike`).
#![tactic(auto)]

mod credits;
mod data;
mod ledger;
mod places;
mod ready;
mod result;
mod settle;
mod sums;

pub use data::{ContractPlaces, Contracts, PeriodData, Subsidiary, UnitData};
pub use result::{AccountRow, CalcFault, CreditRow, Figures, PeriodResult};
pub use settle::settle_period;
