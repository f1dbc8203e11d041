//! Lines that ask for a report.

ghost use Rattle.std.specs.Prelude.{◌≡◌, option_map};
ghost use Rattle.hh_script.specs.Reports.{asked_value, report_of, report_value};
ghost use Rattle.hh_script.specs.Words.{words_of};

use crate::words::{only_word, split_word};
use hh_word_values::{Report, read_report, read_run_key, read_shown_key};

/// `report KEY FORM [DATE KIND]`: a report to be written (profile).
#[derive(Clone, Copy, Debug, PartialEq, Eq)]
pub struct ReportLine<'a> {
    /// The key that is shown, in the grammar of the operator's key or of a party's.
    pub key: &'a [u8],
    pub report: Report,
}

impl<'a> ReportLine<'a> {
    /// The line with these words after `report`, if they form one.
    pub(crate) fn read(text: &'a [u8]) -> Option<ReportLine<'a>>
        ensures { option_map report_of result ≡ report_value (words_of text.entry.now) }
    {
        let (key, report) = split_word(text)?;
        Some(ReportLine {
            key: read_shown_key(key)?,
            report: read_asked(report)?,
        })
    }
}

/// The report that the words after the key ask for, if they ask for one.
fn read_asked(text: &[u8]) -> Option<Report>
    ensures { result ≡ asked_value (words_of text.now) }
{
    match split_word(text) {
        None => read_report(text, None),
        Some((form, run)) => {
            let (date, kind) = split_word(run)?;
            read_report(form, Some(read_run_key(date, only_word(kind)?)?))
        }
    }
}
