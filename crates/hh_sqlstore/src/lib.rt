//! The tables of an office, kept in a database.
//!
//! The content of `SqlTables` is what the last commit left, and a load and a run are one
//! transaction each, whose commit comes last. If the database has no memory left the answer is
//! `Memory`, and for any other failure it is `Store`. `SqlTables::create` makes the tables of a new
//! office. `SqlTables::adopt` takes a database over if its tables, columns, keys and rules are an
//! office's and its settings have their grammar: a bad row elsewhere is found later, by the call
//! that meets it. A database in which no positions are kept gets them, in one transaction, and its
//! content stays. That a report keeps its rows out of memory is only tested.
#![tactic(auto)]

mod adopting;
mod changing;
mod faults;
mod keeping;
mod parts;
mod reporting;
mod rows;
mod sql_tables;
mod tables;

pub use hh_sqlschema::Rising;
pub use sql_tables::SqlTables;
