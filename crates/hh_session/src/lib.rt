//! Scripts that are run over an office, and what they write.
//!
//! `run_script` reads all lines of a file before it runs any, over a new office in memory, and
//! `run_lines` runs lines over any office. A load or a run is done if the reply is no refusal, a
//! report if its whole text is written, and a line that serves if its port was listened on. Such a
//! line prints its port, awaits exactly as many connections as it says (`AwaitsAll`), serves each
//! at the line's moment (`AllTell`), and awaits none if the output fails (`awaits_none`). No clause
//! says that it has no second listener on the port. A line is answered 91 only if the store counts
//! more refusals after the lines than before them (`HasRefused`). All this is the same whatever
//! `Notes` is given the results, and so with explanations.
#![tactic(auto)]

mod notes;
mod reporting;
mod run;
mod script;
mod serving;
mod tell;

pub use hh_desk::{Errand, ErrandStop, Office, Serving, reached_conserve, run_errand};
pub use notes::{Came, NoNotes, Notes};
pub use run::{LinesStop, run_lines};
pub use script::{MOST_SCRIPT_BYTES, ScriptStop, read_script_file, run_script};
