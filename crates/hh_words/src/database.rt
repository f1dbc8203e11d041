//! The commands on a database file.

ghost use Rattle.std.specs.Prelude.{◌≡◌, option_map};
ghost use Rattle.clap.specs.Words.{found_of, rows_of};
ghost use Rattle.hh_words.specs.Database.{report_asked, given_init, given_load, given_report, given_run, given_serve, given_task};
ghost use Rattle.hh_words.specs.Tasks.{task_of};

use crate::given::{count_of, key_of, moment_of, settings_of, value_of};
use clap::ArgMatches;
use hh_names::FileName;
use hh_requests::Report;
use hh_rows::{FileKind, Settings};
use hh_runs::RunKey;
use hh_word_values::{read_path_name, read_port, read_report, read_run_key};

/// A command on a database file.
#[derive(Clone, Copy, Debug, PartialEq, Eq)]
pub struct DatabaseWords<'a> {
    /// The path of the database file.
    pub path: &'a str,
    pub task: DatabaseTask<'a>,
}

/// What is done on a database file.
#[derive(Clone, Copy, Debug, PartialEq, Eq)]
pub enum DatabaseTask<'a> {
    /// Makes the file, with a new office in it.
    Init(Settings),
    /// Takes an office of an earlier version to the present one.
    Migrate,
    /// Loads a file of rows.
    Load(LoadWords<'a>),
    /// Makes a run.
    Run(RunWords<'a>),
    /// Writes a report.
    Report(ReportWords<'a>),
    /// Serves connections.
    Serve(ServeWords),
    /// Runs the lines of the script at this path.
    Script(&'a str),
}

/// The values of `load`.
#[derive(Clone, Copy, Debug, PartialEq, Eq)]
pub struct LoadWords<'a> {
    /// The moment of the command, in seconds since 1970-01-01T00:00:00Z, if one is given.
    pub at: Option<i64>,
    /// The key that is shown, in the grammar of the operator's key or of a party's.
    pub key: &'a [u8],
    pub kind: FileKind,
    /// The path of the file.
    pub path: &'a str,
    /// The name by which the file is registered: what follows the path's last `/`.
    pub name: FileName,
}

/// The values of `run`.
#[derive(Clone, Copy, Debug, PartialEq, Eq)]
pub struct RunWords<'a> {
    /// The moment of the command, in seconds since 1970-01-01T00:00:00Z, if one is given.
    pub at: Option<i64>,
    /// The key that is shown, in the grammar of the operator's key or of a party's.
    pub key: &'a [u8],
    pub run: RunKey,
}

/// The values of `report`.
#[derive(Clone, Copy, Debug, PartialEq, Eq)]
pub struct ReportWords<'a> {
    /// The key that is shown, in the grammar of the operator's key or of a party's.
    pub key: &'a [u8],
    pub report: Report,
}

/// The values of `serve`.
#[derive(Clone, Copy, Debug, PartialEq, Eq)]
pub struct ServeWords {
    /// The moment of every request, in seconds since 1970-01-01T00:00:00Z, if one is given.
    pub at: Option<i64>,
    pub port: u16,
    /// How many connections are served.
    pub count: u32,
}

/// The task of a subcommand on a database file. It is `None` if the subcommand has none, or if its values
/// are off their grammars.
pub(crate) fn database_task<'a>(name: &str, given: &ArgMatches<'a>) -> Option<DatabaseTask<'a>>
    ensures { option_map task_of result ≡ given_task name.now (rows_of (found_of given.now)) }
{
    if name == "init" {
        init_of(given)
    } else if name == "migrate" {
        Some(DatabaseTask::Migrate)
    } else if name == "load" {
        load_of(given)
    } else if name == "run" {
        run_of(given)
    } else if name == "report" {
        report_of(given)
    } else if name == "serve" {
        serve_of(given)
    } else {
        None
    }
}

#[tactic(auto, unfolding(crate::specs::Database::given_init))]
fn init_of<'a>(given: &ArgMatches<'a>) -> Option<DatabaseTask<'a>>
    ensures { option_map task_of result ≡ given_init (rows_of (found_of given.now)) }
{
    Some(DatabaseTask::Init(settings_of(given)?))
}

#[tactic(auto, unfolding(crate::specs::Database::given_load))]
fn load_of<'a>(given: &ArgMatches<'a>) -> Option<DatabaseTask<'a>>
    ensures { option_map task_of result ≡ given_load (rows_of (found_of given.now)) }
{
    let path = value_of(given, "FILE")?;
    Some(DatabaseTask::Load(LoadWords {
        at: moment_of(given)?,
        key: key_of(given)?,
        kind: FileKind::read(value_of(given, "KIND")?.as_bytes())?,
        path,
        name: read_path_name(path.as_bytes())?,
    }))
}

#[tactic(auto, unfolding(crate::specs::Database::given_run))]
fn run_of<'a>(given: &ArgMatches<'a>) -> Option<DatabaseTask<'a>>
    ensures { option_map task_of result ≡ given_run (rows_of (found_of given.now)) }
{
    let date = value_of(given, "DATE")?;
    let kind = value_of(given, "KIND")?;
    Some(DatabaseTask::Run(RunWords {
        at: moment_of(given)?,
        key: key_of(given)?,
        run: read_run_key(date.as_bytes(), kind.as_bytes())?,
    }))
}

#[tactic(auto, unfolding(crate::specs::Database::given_report))]
fn report_of<'a>(given: &ArgMatches<'a>) -> Option<DatabaseTask<'a>>
    ensures { option_map task_of result ≡ given_report (rows_of (found_of given.now)) }
{
    let form = value_of(given, "FORM")?;
    let date = value_of(given, "DATE");
    let kind = value_of(given, "KIND");
    Some(DatabaseTask::Report(ReportWords {
        key: key_of(given)?,
        report: asked_of(form, date, kind)?,
    }))
}

/// The report that a form asks for. It is about the run of a date and a kind if both are given.
fn asked_of(form: &str, date: Option<&str>, kind: Option<&str>) -> Option<Report>
    ensures { result ≡ report_asked form.now (option_map (λ text. text.now) date.entry)
        (option_map (λ text. text.now) kind.entry) }
{
    match (date, kind) {
        (None, None) => read_report(form.as_bytes(), None),
        (Some(date), Some(kind)) => {
            let run = read_run_key(date.as_bytes(), kind.as_bytes())?;
            read_report(form.as_bytes(), Some(run))
        }
        _ => None,
    }
}

#[tactic(auto, unfolding(crate::specs::Database::given_serve))]
fn serve_of<'a>(given: &ArgMatches<'a>) -> Option<DatabaseTask<'a>>
    ensures { option_map task_of result ≡ given_serve (rows_of (found_of given.now)) }
{
    Some(DatabaseTask::Serve(ServeWords {
        at: moment_of(given)?,
        port: read_port(value_of(given, "port")?.as_bytes())?,
        count: count_of(value_of(given, "count"))?,
    }))
}
