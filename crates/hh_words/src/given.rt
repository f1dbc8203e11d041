//! The values that a subcommand was given, each read by its grammar.

ghost use Rattle.std.specs.Prelude.{◌≡◌, option_map};
ghost use Rattle.std.specs.Option.{option_copied};
ghost use Rattle.clap.specs.Words.{first_of, found_of, rows_of};
ghost use Rattle.hh_words.specs.Given.{count_given, given_key, given_moment, given_settings, minutes_given};

use clap::ArgMatches;
use hh_names::OperatorKey;
use hh_rows::{LeadMinutes, Settings};
use hh_word_values::{MOST_CONNECTIONS, read_count, read_moment, read_shown_key};

/// The text that a subcommand was given under a name.
pub(crate) fn value_of<'a>(given: &ArgMatches<'a>, name: &str) -> Option<&'a str>
    ensures { option_map (λ text. text.now) result
        ≡ first_of name.now (rows_of (found_of given.now)) }
{
    given.get_str(name)
}

/// The settings of a new office.
pub(crate) fn settings_of(given: &ArgMatches<'_>) -> Option<Settings>
    ensures { result ≡ given_settings (rows_of (found_of given.now)) }
{
    Some(Settings {
        operator_key: OperatorKey::read(value_of(given, "operator-key")?.as_bytes())?,
        lead_minutes: minutes_of(value_of(given, "lead-minutes"))?,
    })
}

/// The minutes that were given, or the usual ones if none were.
fn minutes_of(text: Option<&str>) -> Option<LeadMinutes>
    ensures { result ≡ minutes_given (option_map (λ text. text.now) text.entry) }
{
    match text {
        Some(text) => LeadMinutes::read(text.as_bytes()),
        None => Some(LeadMinutes::default()),
    }
}

/// The key that is shown.
pub(crate) fn key_of<'a>(given: &ArgMatches<'a>) -> Option<&'a [u8]>
    ensures { option_copied result ≡ given_key (rows_of (found_of given.now)) }
{
    read_shown_key(value_of(given, "key")?.as_bytes())
}

/// The moment that was given, if one was. The outer value is `None` if it is off its grammar.
pub(crate) fn moment_of(given: &ArgMatches<'_>) -> Option<Option<i64>>
    ensures { result ≡ given_moment (rows_of (found_of given.now)) }
{
    match value_of(given, "at") {
        Some(text) => Some(Some(read_moment(text.as_bytes())?)),
        None => Some(None),
    }
}

/// The count of connections that was given, or the greatest if none was.
pub(crate) fn count_of(text: Option<&str>) -> Option<u32>
    ensures { result ≡ count_given (option_map (λ text. text.now) text.entry) }
{
    match text {
        Some(text) => read_count(text.as_bytes()),
        None => Some(MOST_CONNECTIONS),
    }
}
