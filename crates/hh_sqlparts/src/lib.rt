//! Reading a part of what is registered and in force: the part from which a Settlement Day is
//! settled, and the part by which the rows of a file are judged.
//!
//! Rows are judged by the part that `select_named` gives as they are by all tables, and a
//! Settlement Day settles by that of `select_day` as by all. `select_contracts_of_day` gives the
//! contracts of a date alone, `select_day_beside` what is kept beside the rows of a date, and
//! `select_before_load` the positions that rows change and the steps that they make in the
//! registrations of units. `select_beside_anew` gives what has to be kept beside tables that have
//! nothing beside them so far. Each call only reads (`frame`).
#![tactic(auto)]

mod before_load;
mod beside_anew;
mod changed_positions;
mod day_beside;
mod day_contracts;
mod day_rows;
mod day_units;
mod moved_positions;
mod named;
mod named_names;
mod named_tables;
mod tables;

pub use before_load::{BeforeLoad, select_before_load};
pub use beside_anew::{BesideAnew, select_beside_anew};
pub use day_beside::select_day_beside;
pub use day_contracts::select_contracts_of_day;
pub use day_rows::select_day;
pub use hh_kept_rows::{
    contracts_by_their_rows, loads_agree, made_anew_agrees, made_anew_are_written, parts_of_parts,
    postings_to, read_by_what_is_beside, runs_agree, runs_on,
};
pub use named::select_named;
