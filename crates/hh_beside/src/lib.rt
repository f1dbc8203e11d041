//! What a store keeps beside the tables of an office: contract positions and touched Settlement
//! Periods.
//!
//! Each function is a law. A store may keep the contract position of each account in each
//! Settlement Period, and which periods were touched since the latest run of their date. These keep
//! agreeing with the tables through each load and each run (`loads_agree`, `runs_agree`), and agree
//! when they are made anew (`made_anew_agrees`). A known position is the net of the contracts in
//! force (`known_is_net`). An untouched period of a date's latest run equals what the present rows
//! settle to, if the date still has the accounts of that run (`untouched_is_settled`). No clause
//! says that it is in fact taken over: tests count the periods.
#![tactic(auto)]

mod day_laws;
mod laws;
mod position_laws;

pub use day_laws::untouched_is_settled;
pub use hh_state_laws::{load_effect, run_effect, sound_states};
pub use laws::{loads_agree, made_anew_agrees, runs_agree};
pub use position_laws::{known_are_nets, known_is_net, made_anew_are_written, parts_serve};
