//! The tables of an office in its database: what each is, and what it has of its own.
//!
//! An office's database has seventeen tables (`make_tables`): the fourteen that an office keeps,
//! and `positions`, `touched` and `marks`. Each is a type that implements `OfficeTable`, and is
//! written, selected and given by the calls of `hh_sqltables`, as `replace` and `select`. Beside
//! them `insert_results` writes the results of a run from the rows of its accounts, and
//! `give_results_of` gives them in the order of their Settlement Periods. When a group of rows is
//! written by one statement is in no clause: it is only tested.
#![tactic(auto)]

mod make;
mod run_results;
pub mod tables;
mod unit_date;

pub use hh_keyed_rows::{
    AccountAmounts, Columned, LoadChange, NoColumns, OneRow, RowFault, RunChange,
};
pub use hh_sqltables::{
    Found, GROUP, Grouped, Listed, RowTaker, Under, give_all, insert_all, insert_group,
    remove_under, replace, replace_all, select, select_all, select_each, select_under,
    select_under_each,
};
pub use make::make_tables;
pub use run_results::{give_results_of, insert_results};
pub use unit_date::UnitDate;
