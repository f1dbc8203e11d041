//! The program `hh_bench`: measurements and trials, each by a command of its own. `main` is proved to
//! be safe and to end. No clause says what is measured or found.
//!
//! - `settle TIMES` settles a period of the market's size, `read KIND FILE TIMES` reads a file of a
//!   kind, and `load KIND FILE ..` reads files and applies their rows to a new register.
//! - `office DB SCRIPT` runs the lines of a script over the office in a database file. With
//!   `OPERATOR-KEY LEAD-MINUTES` after that it makes the office first. With `small` before these few
//!   pages are kept in memory, and the first line that is refused is the last.
//! - `answer KIND` reads damaged inputs from standard input, each twice, and writes their answers.
//!   KIND is the word of a kind of file, `request`, `script`, or `database MOMENT FILE ..`: then
//!   the office in each database gets the calls of the files, each an HTTP request or a line of a
//!   script that asks for a report.
//! - `log DB MOMENT FILE ..` writes the log that is left beside a database file after such calls.
//! - `refuse WAY HOW STORE MOMENT FILE ..` makes an office and gives it such calls, with each
//!   growth of memory refused in turn. WAY is `handle`, `serve` or `together`. HOW is `once`, or
//!   `on` if each later growth is refused too. STORE is `memory`, or the path of a database file
//!   that is to be made.
//!
//! What was done is written to standard output, and the nanoseconds that it took, or what is wrong,
//! to standard error. Memory is refused by a library that is loaded before,
//! `tests/failing_malloc.c`.
#![tactic(auto)]

mod answers;
mod calls;
mod checksum;
mod contents;
mod course;
mod generated;
mod measures;
mod office;
mod stop;
mod stores;
mod sweep;
mod ways;
mod words;

use std::process::ExitCode;
use stop::{TrialStop, tell};

/// The exit status is 0 if everything was done and told, 2 for words that form no command, and 1 for
/// everything else. If it is not 0, a line on standard error tells why.
fn main(rt: HostRuntime) -> ExitCode {
    match run(&rt) {
        Ok(()) => ExitCode::SUCCESS,
        Err(stop) => ExitCode::from(tell(&rt, stop)),
    }
}

/// Does what the program's words ask for.
fn run(rt: &HostRuntime) -> Result<(), TrialStop> {
    let words: Vec<String> = std::env::args(rt)?.collect(rt.alloc())?;
    words::run_words(rt, &words)
}
