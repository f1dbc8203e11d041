//! The words of the command line.

ghost use Rattle.std.specs.Prelude.{◌≡◌, ◌≢◌, IfOk, IfErr, map, string_bytes, option_map, None, Some};
ghost use Rattle.clap.specs.Words.{found_of, kind_of, rows_of, subcommand_rows_of};
ghost use Rattle.clap.specs.declared.error.kind.ErrorKind.TheVariants.{OutOfMemory};
ghost use Rattle.hh_words.specs.Lines.{TellsUsage, asks_version, given_command, given_database, given_line, given_period, given_script, line_of, line_value};

use crate::database::{DatabaseTask, DatabaseWords, database_task};
use crate::given::{settings_of, value_of};
use crate::grammar::settle_grammar;
use crate::wrong::wrong_text;
use clap::ArgMatches;
use clap::error::ErrorKind;
use hh_rows::Settings;
use std::alloc::{AllocError, Global};

/// How the program is used, in short.
pub const USAGE: &str = "usage: settle period METER CONTRACTS PRICE
       settle script --operator-key KEY [--lead-minutes N] [--strict] FILE
       settle script --db PATH [--strict] FILE
       settle init --db PATH --operator-key KEY [--lead-minutes N]
       settle migrate --db PATH
       settle load --db PATH --key KEY [--at SECONDS] KIND FILE
       settle run --db PATH --key KEY [--at SECONDS] DATE KIND
       settle report --db PATH --key KEY FORM [DATE KIND]
       settle serve --db PATH --port N [--count N] [--at SECONDS]
       settle --version
       --key-file PATH and --operator-key-file PATH take the key from a file
       with any command: [--explain]\n";

/// What the program tells about its version.
pub const VERSION: &str = "settle 2.0.0, tables of version 2\n";

/// What the program is to do.
#[derive(Clone, Copy, Debug, PartialEq, Eq)]
pub enum Command<'a> {
    /// Settles one period from a file of meters, a file of contracts and a price.
    Period(PeriodWords<'a>),
    /// Runs the lines of a script over a new office in memory.
    Script(ScriptWords<'a>),
    /// Works on the office in a database file.
    OnDatabase(DatabaseWords<'a>),
}

/// The words of `period`, as they were given.
#[derive(Clone, Copy, Debug, PartialEq, Eq)]
pub struct PeriodWords<'a> {
    pub meter: &'a str,
    pub contracts: &'a str,
    pub price: &'a str,
}

/// The values of `script` over a new office.
#[derive(Clone, Copy, Debug, PartialEq, Eq)]
pub struct ScriptWords<'a> {
    pub settings: Settings,
    pub file: &'a str,
}

/// Why the words form no command.
#[derive(Debug, Drop)]
pub enum WordsFault {
    /// The words form no command, or ask for help. The text is for the user.
    Wrong(String),
    /// Memory was refused.
    Memory,
}

impl From<AllocError> for WordsFault {
    ghost use Rattle.hh_words.specs.declared.words.WordsFault.TheVariants.{Memory};

    ghost from_gives = { λ _ fault. fault ≡ Memory };

    fn from(_error: AllocError) -> WordsFault {
        WordsFault::Memory
    }
}

/// Reads a line of words, which begins with the program's own name.
///
/// # Errors
///
/// `Wrong` with a text from `clap`: the words form no command by `clap`'s grammar, or ask for help. `Wrong`
/// with a line that tells the reason, an empty line and `USAGE`: a value is off its grammar, or the values
/// of `script` or `report` don't go together. `Memory`: memory was refused.
pub fn read_words<'a>(alloc: Global, words: &'a [String]) -> Result<Command<'a>, WordsFault>
    ensures command { IfOk result (λ command.
        line_value (map string_bytes words.entry.now) ≡ Some (line_of command)) }
    ensures wrong { IfErr result (λ fault. fault ≢ WordsFault.Memory
        → line_value (map string_bytes words.entry.now) ≡ None) }
    ensures usage { IfErr result (TellsUsage (map string_bytes words.entry.now)) }
{
    let settle = settle_grammar(alloc)?;
    match settle.try_get_matches_from(words) {
        Ok(matches) => match command_of(&matches) {
            Some(command) => Ok(command),
            None => Err(WordsFault::Wrong(wrong_text(alloc, &matches)?)),
        },
        Err(error) => Err(fault_of(alloc, &error)),
    }
}

/// Whether the words ask for the program's version: only `--version` after the program's own name.
pub fn asks_version(words: &[String]) -> bool
    ensures { result ≡ asks_version (map string_bytes words.now) }
{
    words.len() == 2 && words[1].as_str() == "--version"
}

/// What the program makes of an error of `clap`.
fn fault_of(alloc: Global, error: &clap::Error) -> WordsFault
    ensures { kind_of error.now ≡ OutOfMemory → result ≡ WordsFault.Memory }
{
    if error.kind() == ErrorKind::OutOfMemory {
        return WordsFault::Memory;
    }
    match error.to_string(alloc) {
        Ok(text) => WordsFault::Wrong(text),
        Err(_) => WordsFault::Memory,
    }
}

/// The command that a subcommand and its values make.
fn command_of<'a>(matches: &ArgMatches<'a>) -> Option<Command<'a>>
    ensures { option_map line_of result ≡ given_line (subcommand_rows_of matches.now) }
{
    let (name, given) = matches.subcommand()?;
    named_command(name, given)
}

/// The command of a subcommand's name and the values that it was given.
fn named_command<'a>(name: &str, given: &ArgMatches<'a>) -> Option<Command<'a>>
    ensures { option_map line_of result ≡ given_command name.now (rows_of (found_of given.now)) }
{
    if name == "period" {
        period_of(given)
    } else if name == "script" {
        script_of(given)
    } else {
        database_of(name, given)
    }
}

#[tactic(auto, unfolding(crate::specs::Lines::given_period))]
fn period_of<'a>(given: &ArgMatches<'a>) -> Option<Command<'a>>
    ensures { option_map line_of result ≡ given_period (rows_of (found_of given.now)) }
{
    Some(Command::Period(PeriodWords {
        meter: value_of(given, "METER")?,
        contracts: value_of(given, "CONTRACTS")?,
        price: value_of(given, "PRICE")?,
    }))
}

/// A command on a database file. It needs the file's path.
fn database_of<'a>(name: &str, given: &ArgMatches<'a>) -> Option<Command<'a>>
    ensures { option_map line_of result ≡ given_database name.now (rows_of (found_of given.now)) }
{
    let path = value_of(given, "db")?;
    match database_task(name, given) {
        Some(task) => Some(Command::OnDatabase(DatabaseWords { path, task })),
        None => None,
    }
}

/// A script over a new office, or over the office of a database file, which has its own key and minutes.
#[tactic(auto, unfolding(crate::specs::Lines::given_script))]
fn script_of<'a>(given: &ArgMatches<'a>) -> Option<Command<'a>>
    ensures { option_map line_of result ≡ given_script (rows_of (found_of given.now)) }
{
    let file = value_of(given, "FILE")?;
    let Some(path) = value_of(given, "db") else {
        return Some(Command::Script(ScriptWords {
            settings: settings_of(given)?,
            file,
        }));
    };
    if value_of(given, "operator-key").is_some() || value_of(given, "lead-minutes").is_some() {
        return None;
    }
    Some(Command::OnDatabase(DatabaseWords {
        path,
        task: DatabaseTask::Script(file),
    }))
}
