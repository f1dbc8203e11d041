//! What the words of a line have to be.

use crate::words::split_word;
use hh_rows::FileKind;
use hh_runs::RunKind;
use hh_time::SettlementDate;
use hh_word_values::{
    read_count, read_moment, read_path, read_path_name, read_port, read_shown_key,
};

/// What was expected in the place of a word that is off its grammar.
#[derive(Clone, Copy, Debug, PartialEq, Eq)]
pub enum Expected {
    /// The name of a command.
    Command,
    /// A moment, in whole seconds.
    Moment,
    /// A key, the operator's or a party's.
    Key,
    /// A kind of file.
    Kind,
    /// A path, whose last part is the name of a file.
    Path,
    /// A date that can be settled.
    Date,
    /// A kind of run.
    RunKind,
    /// The form of a report.
    Form,
    /// A port.
    Port,
    /// A count of connections.
    Count,
    /// No more words.
    NoMore,
    /// A line that is not empty.
    Line,
}

impl Expected {
    /// Whether a word is what is expected.
    pub(crate) fn reads(self, word: &[u8]) -> bool {
        match self {
            Expected::Command => is_command(word),
            Expected::Moment => read_moment(word).is_some(),
            Expected::Key => read_shown_key(word).is_some(),
            Expected::Kind => FileKind::read(word).is_some(),
            Expected::Path => read_path(word).is_some() && read_path_name(word).is_some(),
            Expected::Date => SettlementDate::read(word).is_some(),
            Expected::RunKind => RunKind::read(word).is_some(),
            Expected::Form => is_form(word),
            Expected::Port => read_port(word).is_some(),
            Expected::Count => read_count(word).is_some(),
            Expected::NoMore | Expected::Line => false,
        }
    }

    /// The grammar of what is expected, in words.
    pub fn text(self) -> &'static str {
        match self {
            Expected::Command => "load, run, report or serve",
            Expected::Moment => "seconds since 1970-01-01T00:00:00Z, a whole number",
            Expected::Key => "a key: op- and 8 to 61 letters or digits, or a party's of 8 to 64",
            Expected::Kind => "one of parties, units, meters, prices, contracts, reallocations",
            Expected::Path =>
                "a path whose last part is a name of 1 to 64 letters, digits, ., _ or -",
            Expected::Date => "a date YYYY-MM-DD from 2001-01-01 to 2099-12-31",
            Expected::RunKind => "SF, R1, R2, R3, RF or DF",
            Expected::Form => "day, csv or balances",
            Expected::Port => "a port, 0 to 65535",
            Expected::Count => "a count of connections, 0 to 1000000",
            Expected::NoMore => "no more words",
            Expected::Line => "a command, load, run, report or serve",
        }
    }
}

/// What the words of a line must be, one after the other. Its first word decides, and for a report the form
/// as well.
pub(crate) fn form_of(line: &[u8]) -> &'static [Expected] {
    let (command, words) = parts_of(line);
    match command {
        b"load" => &[
            Expected::Command,
            Expected::Moment,
            Expected::Key,
            Expected::Kind,
            Expected::Path,
        ],
        b"run" => &[
            Expected::Command,
            Expected::Moment,
            Expected::Key,
            Expected::Date,
            Expected::RunKind,
        ],
        b"report" => report_form(words),
        b"serve" => &[
            Expected::Command,
            Expected::Moment,
            Expected::Port,
            Expected::Count,
        ],
        _ => &[Expected::Command],
    }
}

/// What the words of a line must be that has these words after `report`.
fn report_form(words: &[u8]) -> &'static [Expected] {
    let (_, asked) = parts_of(words);
    match parts_of(asked).0 {
        b"balances" => &[Expected::Command, Expected::Key, Expected::Form],
        _ => &[
            Expected::Command,
            Expected::Key,
            Expected::Form,
            Expected::Date,
            Expected::RunKind,
        ],
    }
}

/// The first word of a text, and what follows the blank after it. That is empty if there is only one word.
fn parts_of(text: &[u8]) -> (&[u8], &[u8]) {
    match split_word(text) {
        Some(parts) => parts,
        None => (text, &text[text.len()..]),
    }
}

/// Whether a word is the name of a command.
fn is_command(word: &[u8]) -> bool {
    matches!(word, b"load" | b"run" | b"report" | b"serve")
}

/// Whether a word is the form of a report.
fn is_form(word: &[u8]) -> bool {
    matches!(word, b"day" | b"csv" | b"balances")
}
