//! A new run of a date: its Settlement Periods, settled, and what is written for it.
//!
//! `settle_day` settles the periods of a day that may have changed, takes the others over, and
//! stops at the first that passes a limit. `run_change` gives what the machine writes for the run
//! (`writes_the_run`). Both answer `Store` if a period isn't ready to be settled, or if a count or
//! a sum is off its range. That is never so for a run that the machine makes (`terms_ready`,
//! `runs_fit`), so their only fault is then `Memory`. The tables of each state that the machine
//! reaches add up (`reached_conserve`).
#![tactic(auto)]

mod entries;
mod laws;
mod nets;
mod run;
mod settle;

pub use hh_state_laws::{
    accepted_files_in_range, balances_within, kept_files, kept_kinds_of_dates, kept_postings,
    kept_results, kept_summaries, keys_never_meet, load_effect, paid_within, periods_ready,
    run_effect,
};
pub use laws::{reached_conserve, runs_fit, settled_in_one_way, terms_ready, writes_the_run};
pub use run::run_change;
pub use settle::{SettledDay, SettledPeriod, settle_day};
