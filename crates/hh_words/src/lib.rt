//! The words of a command line: which command they are.
//!
//! `read_words` gives the command of a line with its values. `take_options` takes the options off
//! first, and `with_key` puts the key of a file in the place of the file's name. Which words form a
//! command is defined over what the toolchain's crate `clap` states of itself: `settle_app` names
//! for each command its words, which of them have to be there, and the values that count if none is
//! given. For words in which `clap` finds a fault the text is that of `clap`. The texts for help
//! and for wrong words are only tested.
#![tactic(auto)]

mod database;
mod given;
mod grammar;
mod key_files;
mod options;
mod values;
mod words;
mod wrong;

pub use database::{DatabaseTask, DatabaseWords, LoadWords, ReportWords, RunWords, ServeWords};
pub use key_files::{file_with_key, key_in_file, with_key};
pub use options::{Options, take_options};
pub use words::{
    Command, PeriodWords, ScriptWords, USAGE, VERSION, WordsFault, asks_version, read_words,
};
