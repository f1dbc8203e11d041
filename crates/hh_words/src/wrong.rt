//! What is told about words in which `clap` finds no fault, but which form no command.

ghost use Rattle.std.specs.Prelude.{IfOk, string_bytes};
ghost use Rattle.hh_words.specs.Lines.{EndsWithUsage};

use crate::given::value_of;
use crate::grammar::{Form, SUBCOMMANDS, Subcommand, Word};
use crate::words::USAGE;
use clap::ArgMatches;
use hh_word_values::CutText;
use std::alloc::{AllocError, Global};

/// What is wrong with the values of a command.
#[derive(Clone, Copy)]
enum Wrong<'a> {
    /// They don't go together, as this text tells.
    Company(&'static str),
    /// This one is off its grammar.
    Value(Word<'static>, &'a str),
}

/// Tells what is wrong with the values of a command, and then how the program is used.
pub(crate) fn wrong_text(alloc: Global, matches: &ArgMatches<'_>) -> Result<String, AllocError>
    ensures { IfOk result (λ text. EndsWithUsage (string_bytes text)) }
{
    let mut text = String::new(alloc);
    push_wrong(&mut text, wrong_of(matches))?;
    text.push_str(USAGE)?;
    Ok(text)
}

/// What is wrong with the values of a command, if anything is found.
fn wrong_of<'a>(matches: &ArgMatches<'a>) -> Option<Wrong<'a>> {
    let (name, given) = matches.subcommand()?;
    match wrong_company(name, given) {
        Some(text) => Some(Wrong::Company(text)),
        None => wrong_value(subcommand_named(name)?.words, given),
    }
}

/// The subcommand of a name.
fn subcommand_named(name: &str) -> Option<Subcommand<'static>> {
    for subcommand in SUBCOMMANDS {
        if subcommand.name == name {
            return Some(subcommand);
        }
    }
    None
}

/// The first of the words whose value is off its grammar.
fn wrong_value<'a>(words: &'static [Word<'static>], given: &ArgMatches<'a>) -> Option<Wrong<'a>> {
    for word in words {
        if let Some(text) = value_of(given, word.name) {
            if !word.value.takes(text) {
                return Some(Wrong::Value(*word, text));
            }
        }
    }
    None
}

/// What is wrong with the values of a command taken together.
fn wrong_company(name: &str, given: &ArgMatches<'_>) -> Option<&'static str> {
    match name {
        "script" => wrong_script(given),
        "report" => wrong_report(given),
        _ => None,
    }
}

/// What is wrong with the options of a script taken together.
fn wrong_script(given: &ArgMatches<'_>) -> Option<&'static str> {
    let has_key = value_of(given, "operator-key").is_some();
    if value_of(given, "db").is_none() {
        if has_key {
            None
        } else {
            Some("script needs --operator-key KEY for a new office, or --db PATH")
        }
    } else if has_key {
        Some("--operator-key can't be given with --db: that office has its own")
    } else if value_of(given, "lead-minutes").is_some() {
        Some("--lead-minutes can't be given with --db: that office has its own")
    } else {
        None
    }
}

/// What is wrong with the words of a report taken together.
fn wrong_report(given: &ArgMatches<'_>) -> Option<&'static str> {
    match value_of(given, "FORM")? {
        "balances" if value_of(given, "DATE").is_some() => {
            Some("balances takes neither DATE nor KIND")
        }
        "day" | "csv" if value_of(given, "KIND").is_none() => {
            Some("day and csv need DATE and KIND")
        }
        _ => None,
    }
}

/// Adds the line that tells what is wrong, and an empty line.
fn push_wrong(text: &mut String, wrong: Option<Wrong<'_>>) -> Result<(), AllocError> {
    match wrong {
        Some(Wrong::Company(company)) => write!(text, "error: {company}\n\n"),
        Some(Wrong::Value(word, value)) => push_value(text, word, value),
        None => Ok(()),
    }
}

/// Adds which word has which value, what the value should look like, and an empty line. If the value is a
/// key, which nobody else may read, only its length is told.
fn push_value(text: &mut String, word: Word<'_>, value: &str) -> Result<(), AllocError> {
    text.push_str("error: ")?;
    if let Form::Named | Form::NamedIfAny = word.form {
        text.push_str("--")?;
    }
    text.push_str(word.name)?;
    if word.value.is_key() {
        write!(text, " of {} bytes", value.len())?;
    } else {
        write!(text, " {}", CutText::of(value.as_bytes()))?;
    }
    write!(text, ": {}\n\n", word.help)
}
