//! Tests from outside of devices, inputs, ports, tables, dates, numbers, rows, the rule of rows,
//! shares, settled periods and runs, for what no clause of their crates says and no program shows.
//! What a program shows is in `tests/`.
//!
//! They are in one program, because a program of tests takes a minute before its first test is
//! proved, and its compiler takes long. A crate of code has no tests, because a crate with tests is
//! proved twice.
#![tactic(auto)]

#[cfg(test)]
mod devices_tests;
#[cfg(test)]
mod inputs_tests;
#[cfg(test)]
mod num_tests;
#[cfg(test)]
mod registrations_tests;
#[cfg(test)]
mod rows_tests;
#[cfg(test)]
mod rules_tests;
#[cfg(test)]
mod runs_tests;
#[cfg(test)]
mod settled_tests;
#[cfg(test)]
mod share_tests;
#[cfg(test)]
mod sockets_tests;
#[cfg(test)]
mod tables_tests;
#[cfg(test)]
mod time_tests;
#[cfg(test)]
mod timed_tests;
