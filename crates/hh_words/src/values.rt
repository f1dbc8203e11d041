//! The grammars of the values of words.

use hh_names::OperatorKey;
use hh_rows::{FileKind, LeadMinutes};
use hh_runs::RunKind;
use hh_time::SettlementDate;
use hh_word_values::{read_count, read_moment, read_path_name, read_port, read_shown_key};

/// The grammar of the value of a word.
#[derive(Clone, Copy)]
pub(crate) enum Value {
    /// Any text; it is not judged here.
    Any,
    OperatorKey,
    LeadMinutes,
    ShownKey,
    Moment,
    FileKind,
    /// A path that ends with the name of a file.
    NamedPath,
    Date,
    RunKind,
    ReportForm,
    Port,
    Count,
}

impl Value {
    /// Whether a text is on the grammar.
    pub(crate) fn takes(self, text: &str) -> bool {
        let text = text.as_bytes();
        match self {
            Value::Any => true,
            Value::OperatorKey => OperatorKey::read(text).is_some(),
            Value::LeadMinutes => LeadMinutes::read(text).is_some(),
            Value::ShownKey => read_shown_key(text).is_some(),
            Value::Moment => read_moment(text).is_some(),
            Value::FileKind => FileKind::read(text).is_some(),
            Value::NamedPath => read_path_name(text).is_some(),
            Value::Date => SettlementDate::read(text).is_some(),
            Value::RunKind => RunKind::read(text).is_some(),
            Value::ReportForm => matches!(text, b"day" | b"csv" | b"balances"),
            Value::Port => read_port(text).is_some(),
            Value::Count => read_count(text).is_some(),
        }
    }

    /// Whether the value is a key, which is never shown.
    pub(crate) fn is_key(self) -> bool {
        matches!(self, Value::OperatorKey | Value::ShownKey)
    }
}
