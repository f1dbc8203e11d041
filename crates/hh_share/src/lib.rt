//! Apportionment of a number of pence by weights.
//!
//! `apportion` splits a total by largest remainders. The shares sum to the total (`sum`), each is
//! its account's quota rounded down or up (`quota`), and no other split departs less from the
//! quotas (`least`). The pence that are left over go to the largest remainders, and of equal ones
//! to the earlier accounts (`ranked`). If all weights are 0, each counts as 1.
#![tactic(auto)]

mod ranking;
mod shares;

pub use hh_num::{NetKwh, Pence, Price, Ticks, round_div};
pub use ranking::ranked;
pub use shares::apportion;
