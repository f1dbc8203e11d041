//! The schema of an office's database: which databases have it, what they contain, and how one is
//! made.
//!
//! `make_office` makes the tables of a new office in an empty database, in one transaction, or
//! changes nothing. `settings_of_office` takes no other database for an office's: the tables,
//! columns, keys and rules have to be those of an office, and the settings in their grammar.
//! `Holds` says which content a database holds. In the last commit of an open store over files the
//! rowids of each table rise (`Rising`).
#![tactic(auto)]

mod making;
mod office_tables;
mod rising;
mod schema;
mod settings;

pub use making::make_office;
pub use rising::{Rising, has_office_of_one};
pub use settings::settings_of_office;
