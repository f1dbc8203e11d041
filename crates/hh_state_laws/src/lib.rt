//! Properties of each state that the settlement machine reaches, and what its tables add up to.
//!
//! Each function is a law, which says something of every such state. The tables follow the machine
//! (`load_effect`, `run_effect`, `kept_files`), and add up (`contracts_sum_to_zero`,
//! `each_unit_credited`, `cash_sums_to_zero`, `postings_total`). What is registered and in force is
//! sound (`sound_states`): there are no more parties and units than there may be, the reference of
//! each contract in force is fixed, and the percentages in force for a unit in a Settlement Period
//! sum to at most 100. What an account pays by its rows in a run sums to at most 10^14 pence in
//! size, since a run has at most 50 periods (`turnovers_within`), and so does its day net
//! (`day_nets_within`). Its balance is at most 3.7 * 10^18 pence in size, since only 36,159 dates
//! are accepted (`balances_within`). So no run fails because a sum doesn't fit its type.
#![tactic(auto)]

mod amounts;
mod consistency;
mod effects;
mod nets;
mod ranges;
mod run_reads;
mod sums;

pub use amounts::{
    balances_within, day_nets_within, paid_within, summaries_within, turnovers_within,
};
pub use consistency::{consistent_states, periods_ready, sound_states};
pub use effects::{kept_files, load_effect, run_effect};
pub use nets::nets_settle_alike;
pub use ranges::{accepted_files_in_range, keys_never_meet};
pub use run_reads::{
    day_nets_from_results, kept_kinds_of_dates, kept_postings, kept_results, kept_summaries,
};
pub use sums::{
    cash_sums_to_zero, contracts_sum_to_zero, day_nets_are_sums, each_period_settled,
    each_unit_credited, postings_total, run_postings_balance,
};
