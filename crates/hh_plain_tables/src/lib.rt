//! The tables of an office, kept as lists in memory.
//!
//! `PlainTables` keeps each clause of the trait `Tables`, and `PlainTables::new` gives the tables
//! of a new office. They are always open. Their contracts say when a call fails: if memory is
//! refused, if the output of a report fails, or if what is registered and in force is not sound,
//! which it is in each state that the machine reaches. What a crash may leave of them is what they
//! have now, which says nothing about a real computer.
#![tactic(auto)]

mod changed_tables;
mod entries;
mod kept_run;
mod kept_runs;
mod plain_tables;

pub use plain_tables::PlainTables;
