//! What the tables of an office answer, and what is written into them, however they are kept.
//!
//! The trait `Tables` gives a meaning to whatever keeps an office's tables: the thirteen tables
//! that it contains (`content`), whether they are open (`is_open`), how often they have refused for
//! another cause than memory (`refusals`), and what a crash may leave (`may_leave`, `holds`). Each
//! call answers by that content, and neither a call that reads nor one that fails changes it.
//! `Tables::apply_load` and `Tables::apply_run` write what a file or a run changes, whole or not at
//! all. `Tables::day_data` may give a Settlement Period as it was settled, which is right if what a
//! store keeps beside its tables agrees with them (`is_in_step`), as it does in each state that the
//! machine reaches. A clause that equates tables before and after a call says nothing of refusals
//! or of crashes: the clauses `refusals_counted` and `crash` do. Only the tables in memory say when
//! their calls fail (`hh_plain_tables`).
#![tactic(auto)]

mod day_data;
mod kept_file;
mod load_change;
mod output_fault;
mod reported_run;
mod run_change;
mod settlement_periods;
mod store_fault;
mod tables;

pub use day_data::{DayData, PeriodState};
pub use hh_reports::{write_balances, write_day_report, write_results};
pub use hh_states::{AccountRow, CreditKey, FileKey, Position, PositionKey, PostingKey, ResultKey};
pub use kept_file::KeptFile;
pub use load_change::LoadChange;
pub use output_fault::OutputFault;
pub use reported_run::reported_as;
pub use run_change::{RunChange, RunRows};
pub use settlement_periods::periods_of;
pub use store_fault::StoreFault;
pub use tables::Tables;
