//! The desk of an office: it loads files, makes runs and serves connections as asked.
//!
//! `load_file` and `make_run` return what came of a load and of a run, `serve_each` serves
//! connections, and `run_errand` does a whole command and writes what was done. Loads, runs and
//! served connections have the same results whether a script's line or a command asks for them. If
//! the output fails after a load or a run, what was asked was done all the same, and the lines that
//! say so (`loaded_line`, `run_line`, `listening_line`) take no memory, so none is lost. What is
//! given up is answered 90 if memory was refused, also for the file of a load, and 91 only if the
//! store counts more refusals after the call than before it (`HasRefused`). A connection is served
//! at the moment that the clock gives for it, and if it gives none, nothing is read or sent.
//! Nothing is said of what a crash leaves after all the connections that one command serves.
#![tactic(auto)]

mod doing;
mod errand;
mod errand_serving;
mod lines;
mod reporting;
mod serving;
mod telling;
mod told;

pub use doing::{load_file, make_run};
pub use errand::{Errand, ErrandStop, Serving, run_errand};
pub use hh_http_serve::{Office, ReportStop, Tables, reached_conserve};
pub use lines::{LINE_ROOM, listening_line, loaded_line, run_line};
pub use serving::serve_each;
pub use told::Told;
