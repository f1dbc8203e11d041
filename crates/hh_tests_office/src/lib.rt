//! The office, tested from outside: what no clause says and no program shows. What programs show,
//! namely the office's answers, its reports and the bytes of its replies, is tested through
//! `settle`.
//!
//! - Rows that no table of an office's database can hold.
//! - Reports over tables in memory and over tables in a database, into outputs in memory.
//! - Connections over devices in memory: which bytes are written if a read or a write fails.
//!   Replies are written out here in the grammar of [formats](../../docs/formats.md).
//! - Commands over files in memory.
//! - Databases that are migrated, or refused, and a stop at each call of a disk during a migration.
//!
//! They are in one program, because a program of tests takes a minute before its first test is
//! proved, and its compiler takes long. A crate of code has no tests, because a crate with tests is
//! proved twice.
#![tactic(auto)]

#[cfg(test)]
mod conversations;
#[cfg(test)]
mod device_tests;
#[cfg(test)]
mod disks;
#[cfg(test)]
mod life_tests;
#[cfg(test)]
mod migration_tests;
#[cfg(test)]
mod report_tests;
#[cfg(test)]
mod requests;
#[cfg(test)]
mod row_tests;
#[cfg(test)]
mod stop_tests;
#[cfg(test)]
mod versions;
