//! Steps that take an office's database from one version of its tables to the next.
//!
//! `migrate` takes a database of version 1 to version 2, and leaves one of version 2 as it is. Of
//! any other it says `Store`. The step makes the table of leads, with one registration for each
//! unit, which begins and ends with it and has its lead account. The settings then name version 2,
//! and every other table stays as it was (`migrated`). That is one transaction: an error leaves the
//! database as it was, and a crash leaves one version or the other.
#![tactic(auto)]

mod first_leads;
mod migrating;
mod tables;

pub use migrating::migrate;
