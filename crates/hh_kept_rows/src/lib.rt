//! What is computed from the rows that a store keeps, in the order of their keys: the register by
//! which rows are judged, the contracts of an account, what a Settlement Day is settled from, and
//! the reports.
//!
//! `KeptRegister::register_for` gives a register that judges rows as one of everything would, and
//! `KeptRegister::contracts` an account's contracts. `KeptRegister::day_data` gives what the
//! Settlement Periods of a day are settled from, and `KeptRegister::day_data_beside` takes over
//! those that haven't changed since the date's latest run. Both give the same settlement if what is
//! kept beside agrees with the tables (`read_by_what_is_beside`). `write_day_report_of`,
//! `write_results_of` and `write_balances_of` write the texts of the reports. Which periods are
//! taken over is only tested.
#![tactic(auto)]

mod contract_places;
mod contracts_by_period;
mod day_beside;
mod day_places;
mod kept_contracts;
mod kept_day;
mod kept_reallocations;
mod kept_register;
mod laws;
mod named_units;
mod net_volumes;
mod part;
mod reports;
mod run_rows;

pub use hh_beside::{
    loads_agree, made_anew_agrees, made_anew_are_written, runs_agree, sound_states,
};
pub use hh_settled_periods::DayBeside;
pub use hh_store::{DayData, KeptFile, LoadChange, OutputFault, RunChange, StoreFault, Tables};
pub use kept_register::KeptRegister;
pub use laws::{contracts_by_their_rows, parts_of_parts, read_by_what_is_beside};
pub use part::name_units;
pub use reports::{write_balances_of, write_day_report_of, write_results_of};
pub use run_rows::{postings_to, results_of, runs_on};
