//! The values that words of a command have.
//!
//! `read_moment`, `read_shown_key`, `read_path`, `read_path_name`, `read_run_key`, `read_report`,
//! `read_port` and `read_count` give a value exactly if a word has one. A `CutText` shows a word
//! that has none. No clause says what it shows: that is only tested.
#![tactic(auto)]

mod connections;
mod cut_text;
mod keys;
mod moments;
mod paths;
mod reports;

pub use connections::{MOST_CONNECTIONS, read_count, read_port};
pub use cut_text::CutText;
pub use hh_requests::Report;
pub use keys::read_shown_key;
pub use moments::read_moment;
pub use paths::{read_path, read_path_name};
pub use reports::{read_report, read_run_key};
