//! Lines that make a run.

ghost use Rattle.std.specs.Prelude.{◌≡◌, option_map};
ghost use Rattle.hh_word_values.specs.Reports.{run_key_value};
ghost use Rattle.hh_word_values.specs.Values.{moment_value, shown_key_value};
ghost use Rattle.hh_script.specs.Steps.{run_from, run_of, run_value};
ghost use Rattle.hh_script.specs.Words.{words_of};

use crate::words::{only_word, split_word};
use hh_runs::RunKey;
use hh_word_values::{read_moment, read_run_key, read_shown_key};

/// `run SECONDS KEY DATE KIND`: a run to be made (profile).
#[derive(Clone, Copy, Debug, PartialEq, Eq)]
pub struct RunLine<'a> {
    /// The moment of the command, in seconds since 1970-01-01T00:00:00Z.
    pub moment: i64,
    /// The key that is shown, in the grammar of the operator's key or of a party's.
    pub key: &'a [u8],
    /// The date that is settled, and the kind of the run.
    pub run: RunKey,
}

impl<'a> RunLine<'a> {
    /// The line with these words after `run`, if they form one.
    pub(crate) fn read(text: &'a [u8]) -> Option<RunLine<'a>>
        ensures { option_map run_of result ≡ run_value (words_of text.entry.now) }
    {
        let (moment, text) = split_word(text)?;
        let (key, text) = split_word(text)?;
        let (date, text) = split_word(text)?;
        RunLine::of(moment, key, date, only_word(text)?)
    }

    /// The line with these four words, if each is in its grammar.
    fn of(moment: &[u8], key: &'a [u8], date: &[u8], kind: &[u8]) -> Option<RunLine<'a>>
        ensures { option_map run_of result ≡ run_from (moment_value moment.now)
            (shown_key_value key.entry.now) (run_key_value date.now kind.now) }
    {
        Some(RunLine {
            moment: read_moment(moment)?,
            key: read_shown_key(key)?,
            run: read_run_key(date, kind)?,
        })
    }
}
