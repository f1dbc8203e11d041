//! Explanations of refusals: which line of which file, what is written there, and what is expected.
//!
//! `load_refused`, `late_rows`, `run_refused`, `report_refused`, `period_refused` and
//! `script_refused` each make one line of text, without a line end. They are proved to be safe and
//! to end. No clause says what a text contains: the texts are only tested.
#![tactic(auto)]

mod columns;
mod headed_file;
mod late;
mod load;
mod meanings;
mod moments;
mod period;
mod records;
mod runs;
mod shown;
mod wrong_rows;

pub use late::late_rows;
pub use load::{RowsFile, load_refused};
pub use meanings::{refused, script_refused};
pub use period::{PeriodInputs, PeriodText, period_refused};
pub use runs::{report_refused, run_refused};
pub use shown::one_line;
