//! The lines of a script.
//!
//! `read_script` gives what each line asks (`ScriptLine`), or the first line that is off its form.
//! A line holds values in types that keep their grammars and ranges. So no load fails because of
//! its name, and each run, and each report of a run, is of a date that is accepted. The text that
//! says what is wrong with a line (`BadWord`) is only tested.
#![tactic(auto)]

mod bad_word;
mod blemish;
mod expected;
mod load;
mod report;
mod run;
mod script;
mod script_line;
mod serve;
mod words;

pub use bad_word::BadWord;
pub use blemish::Blemish;
pub use expected::Expected;
pub use load::LoadLine;
pub use report::ReportLine;
pub use run::RunLine;
pub use script::{ScriptFault, read_script};
pub use script_line::ScriptLine;
pub use serve::ServeLine;
