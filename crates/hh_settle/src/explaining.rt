//! Explanations: one line on the standard error for each refusal, for each fault and for the late rows of a
//! file. No contract says what they contain. To explain a refusal, the refused file is read again, and so
//! are the tables of a database.

ghost use Rattle.std.specs.Prelude.{◌≡◌};
ghost use Rattle.hh_kept_office.specs.Refusals.{CountsUp};
ghost use Rattle.hh_kept_office.specs.Views.{IsSure};

use crate::stop::Stop;
use hh_devices::{Sink, write_whole};
use hh_explain::{
    PeriodInputs, PeriodText, RowsFile, late_rows, load_refused, one_line, period_refused, refused,
    report_refused, run_refused, script_refused,
};
use hh_host::Host;
use hh_kept_office::{Came, DatabaseHost, Notes, Office, Rising, lateness_at, missing_readings_at};
use hh_names::{Fault, Refusal};
use hh_period::{Input, Rejection};
use hh_rows::{FileKind, LeadMinutes};
use hh_runs::RunKey;
use hh_script::ScriptLine;
use hh_store::Tables;
use hh_texts::MOST_BYTES;
use hh_words::{Command, DatabaseTask, DatabaseWords, LoadWords, PeriodWords};
use sqlite::Connection;
use std::alloc::{AllocError, Global};

/// The most bytes that are read of a file: one more than is allowed, so that a larger file is noticed.
const MOST_READ: usize = MOST_BYTES + 1;

/// What is told if the bytes of a file are needed again but can't be read again.
const NOT_AGAIN: &str = "it can't be read a second time";

/// A text, if there is anything to tell.
pub(crate) type Explanation = Result<Option<String>, AllocError>;

/// Collects the explanations of a script's lines. They are told after the lines have run.
#[derive(Drop)]
pub(crate) struct Explaining<D> {
    pub(crate) host: D,
    pub(crate) text: String,
}

impl<D: DatabaseHost> Notes for Explaining<D> {
    fn hear<T: Tables, H: Host>(
        &mut self,
        alloc: Global,
        office: &mut Office<'_, T>,
        _host: &H,
        number: usize,
        line: &ScriptLine<'_>,
        came: Came,
    ) {
        let explanation = of_line(alloc, office, &self.host, line, came);
        let _ = push_line(alloc, &mut self.text, number, explanation);
    }
}

/// Adds the explanation of a line of a script, if it has one.
fn push_line(
    alloc: Global,
    text: &mut String,
    number: usize,
    explanation: Explanation,
) -> Result<(), AllocError> {
    if let Some(what) = explanation? {
        let shown = one_line(alloc, what.as_str())?;
        write!(text, "line {number}: {shown}\n")?;
    }
    Ok(())
}

/// Explains what came of a line of a script.
fn of_line<T: Tables, D: DatabaseHost>(
    alloc: Global,
    office: &mut Office<'_, T>,
    host: &D,
    line: &ScriptLine<'_>,
    came: Came,
) -> Explanation
    ensures same { IsSure T.is_open office.new → office.new.seen ≡ office.old.seen }
    ensures refusals_up { IsSure T.is_open office.new → CountsUp T.refusals office.old office.new }
    ensures sure { IsSure T.is_open office.new → IsSure T.is_open office.old }
{
    match (line, came) {
        (ScriptLine::Load(load), Came::Done { late }) if late > 0 => {
            let Ok(settings) = office.settings() else {
                return Ok(None);
            };
            of_late_rows(
                alloc,
                host,
                load.kind,
                load.path,
                settings.lead_minutes,
                late,
            )
        }
        (ScriptLine::Run(run), Came::Refused(fault)) => {
            let missing = missing_in(office, &run.run, &fault);
            Ok(Some(run_refused(alloc, &run.run, &fault, missing)?))
        }
        _ => of_files(alloc, host, line, came),
    }
}

/// How many readings are missing, if the run is refused for missing readings.
fn missing_in<T: Tables>(office: &mut Office<'_, T>, run: &RunKey, fault: &Fault) -> Option<u64>
    ensures same { IsSure T.is_open office.new → office.new.seen ≡ office.old.seen }
    ensures refusals_up { IsSure T.is_open office.new → CountsUp T.refusals office.old office.new }
    ensures sure { IsSure T.is_open office.new → IsSure T.is_open office.old }
{
    match fault.refusal {
        Refusal::MissingMeter => office.missing_readings(run.date).ok(),
        _ => None,
    }
}

/// Explains what came of a line of a script, if its office is not needed for that.
fn of_files<D: DatabaseHost>(
    alloc: Global,
    host: &D,
    line: &ScriptLine<'_>,
    came: Came,
) -> Explanation {
    match (line, came) {
        (ScriptLine::Load(load), Came::Refused(fault)) => {
            of_refused_file(alloc, host, load.kind, load.path, &fault)
        }
        (ScriptLine::Load(load), Came::Unreadable) => of_unreadable(alloc, host, load.path),
        (ScriptLine::Report(report), Came::Refused(fault)) => {
            Ok(Some(report_refused(alloc, &report.report, &fault)?))
        }
        (ScriptLine::Serve(serve), Came::NoSocket) => of_port(alloc, host, serve.port),
        _ => Ok(None),
    }
}

/// Explains the late rows of a file.
fn of_late_rows<D: DatabaseHost>(
    alloc: Global,
    host: &D,
    kind: FileKind,
    path: &str,
    lead_minutes: LeadMinutes,
    late: u32,
) -> Explanation {
    let Some(body) = host.read_again(alloc, path, MOST_READ) else {
        let rows = if late == 1 { "row" } else { "rows" };
        let text = format!(in alloc; "{path}: late: {late} {rows}; {NOT_AGAIN}")?;
        return Ok(Some(text));
    };
    let file = RowsFile {
        kind,
        path,
        body: &body,
    };
    Ok(Some(late_rows(alloc, &file, lead_minutes, late)?))
}

/// Explains why a file of rows is refused.
fn of_refused_file<D: DatabaseHost>(
    alloc: Global,
    host: &D,
    kind: FileKind,
    path: &str,
    fault: &Fault,
) -> Explanation {
    let Some(body) = host.read_again(alloc, path, MOST_READ) else {
        let what = refused(fault);
        return Ok(Some(format!(in alloc; "{path}: {what}; {NOT_AGAIN}")?));
    };
    let file = RowsFile {
        kind,
        path,
        body: &body,
    };
    Ok(Some(load_refused(alloc, &file, fault)?))
}

/// Explains why a file can't be read.
fn of_unreadable<H: Host>(alloc: Global, host: &H, path: &str) -> Explanation {
    match host.why_unreadable(alloc, path)? {
        Some(why) => Ok(Some(format!(in alloc; "{path}: {why}")?)),
        None => Ok(None),
    }
}

/// Explains why a port can't be listened on.
fn of_port<H: Host>(alloc: Global, host: &H, port: u16) -> Explanation {
    match host.why_not_listening(alloc, port)? {
        Some(why) => Ok(Some(format!(in alloc; "port {port}: {why}")?)),
        None => Ok(None),
    }
}

/// Explains what was done for a command: it tells the late rows of a file that was loaded.
pub(crate) fn explain_done<S: Rising, D: DatabaseHost<Connection = Connection<S>>, E: Sink>(
    alloc: Global,
    host: &D,
    command: &Command<'_>,
    err: &mut E,
) {
    if let Command::OnDatabase(words) = command {
        if let DatabaseTask::Load(load) = &words.task {
            let _ = tell(alloc, err, of_loaded(alloc, host, words.path, load));
        }
    }
}

/// Explains the late rows of a file that was loaded into the office at a path.
fn of_loaded<S: Rising, D: DatabaseHost<Connection = Connection<S>>>(
    alloc: Global,
    host: &D,
    path: &str,
    load: &LoadWords<'_>,
) -> Explanation {
    match lateness_at(alloc, host, path, load.kind, &load.name) {
        Some(known) if known.late > 0 => of_late_rows(
            alloc,
            host,
            load.kind,
            load.path,
            known.lead_minutes,
            known.late,
        ),
        _ => Ok(None),
    }
}

/// Explains why a command stops.
pub(crate) fn of_stop<S: Rising, D: DatabaseHost<Connection = Connection<S>>>(
    alloc: Global,
    host: &D,
    command: &Command<'_>,
    stop: &Stop,
) -> Explanation {
    match stop {
        Stop::Refused(rejection) => of_rejection(alloc, host, command, rejection),
        Stop::File => of_file(alloc, host, command),
        Stop::Output => plain(alloc, "standard output takes nothing"),
        Stop::Exists => at_path(alloc, command, "there is something already"),
        Stop::NoFile => at_path(alloc, command, "there is nothing"),
        Stop::NoSocket => of_socket(alloc, host, command),
        Stop::NoClock => plain(alloc, "the clock tells no moment; give one with --at"),
        Stop::BadLine { .. } | Stop::Line { .. } => Ok(None),
    }
}

/// An explanation that is always the same text.
fn plain(alloc: Global, text: &str) -> Explanation {
    Ok(Some(String::from_str(alloc, text)?))
}

/// Tells what was found at the path of a command's database.
fn at_path(alloc: Global, command: &Command<'_>, what: &str) -> Explanation {
    match command {
        Command::OnDatabase(words) => {
            let path = words.path;
            Ok(Some(format!(in alloc; "{path}: {what}")?))
        }
        Command::Period(_) | Command::Script(_) => Ok(None),
    }
}

/// Explains why a command is refused.
fn of_rejection<S: Rising, D: DatabaseHost<Connection = Connection<S>>>(
    alloc: Global,
    host: &D,
    command: &Command<'_>,
    rejection: &Rejection,
) -> Explanation {
    match command {
        Command::Period(words) => of_period(alloc, host, words, rejection),
        Command::Script(words) => { Ok(Some(script_refused(alloc, words.file, &rejection.fault)?)) }
        Command::OnDatabase(words) => of_task(alloc, host, words, &rejection.fault),
    }
}

/// Explains why a command on a database is refused.
fn of_task<S: Rising, D: DatabaseHost<Connection = Connection<S>>>(
    alloc: Global,
    host: &D,
    words: &DatabaseWords<'_>,
    fault: &Fault,
) -> Explanation {
    if fault.refusal == Refusal::Store {
        let (path, what) = (words.path, refused(fault));
        return Ok(Some(format!(in alloc; "{path}: {what}")?));
    }
    match &words.task {
        DatabaseTask::Load(load) => of_refused_file(alloc, host, load.kind, load.path, fault),
        DatabaseTask::Run(run) => {
            let missing = missing_at(alloc, host, words.path, &run.run, fault);
            Ok(Some(run_refused(alloc, &run.run, fault, missing)?))
        }
        DatabaseTask::Report(report) => Ok(Some(report_refused(alloc, &report.report, fault)?)),
        DatabaseTask::Script(file) => Ok(Some(script_refused(alloc, file, fault)?)),
        DatabaseTask::Init(_) | DatabaseTask::Migrate | DatabaseTask::Serve(_) => {
            plain(alloc, refused(fault))
        }
    }
}

/// How many readings are missing, if the run of the office at a path is refused for missing readings.
fn missing_at<S: Rising, D: DatabaseHost<Connection = Connection<S>>>(
    alloc: Global,
    host: &D,
    path: &str,
    run: &RunKey,
    fault: &Fault,
) -> Option<u64> {
    match fault.refusal {
        Refusal::MissingMeter => missing_readings_at(alloc, host, path, run.date),
        _ => None,
    }
}

/// Explains why a command's file can't be read.
fn of_file<H: Host>(alloc: Global, host: &H, command: &Command<'_>) -> Explanation {
    match command {
        Command::Period(words) => match of_unreadable(alloc, host, words.meter)? {
            Some(text) => Ok(Some(text)),
            None => of_unreadable(alloc, host, words.contracts),
        },
        Command::Script(words) => of_unreadable(alloc, host, words.file),
        Command::OnDatabase(words) => match &words.task {
            DatabaseTask::Load(load) => of_unreadable(alloc, host, load.path),
            DatabaseTask::Script(file) => of_unreadable(alloc, host, file),
            DatabaseTask::Init(_)
            | DatabaseTask::Migrate
            | DatabaseTask::Run(_)
            | DatabaseTask::Report(_)
            | DatabaseTask::Serve(_) => Ok(None),
        },
    }
}

/// Explains why a command's port can't be listened on.
fn of_socket<H: Host>(alloc: Global, host: &H, command: &Command<'_>) -> Explanation {
    match command {
        Command::OnDatabase(words) => match &words.task {
            DatabaseTask::Serve(serve) => of_port(alloc, host, serve.port),
            DatabaseTask::Init(_)
            | DatabaseTask::Migrate
            | DatabaseTask::Load(_)
            | DatabaseTask::Run(_)
            | DatabaseTask::Report(_)
            | DatabaseTask::Script(_) => Ok(None),
        },
        Command::Period(_) | Command::Script(_) => Ok(None),
    }
}

/// The two files of a period, if they can be read more than once.
fn bodies_again<D: DatabaseHost>(
    alloc: Global,
    host: &D,
    words: &PeriodWords<'_>,
) -> Option<(Vec<u8>, Vec<u8>)> {
    let meter = host.read_again(alloc, words.meter, MOST_READ)?;
    let contracts = host.read_again(alloc, words.contracts, MOST_READ)?;
    Some((meter, contracts))
}

/// Explains why a period is refused.
fn of_period<D: DatabaseHost>(
    alloc: Global,
    host: &D,
    words: &PeriodWords<'_>,
    rejection: &Rejection,
) -> Explanation {
    let bodies = match rejection.input {
        Some(Input::Meter | Input::Contracts) => bodies_again(alloc, host, words),
        Some(Input::Price) | None => Some((Vec::new(alloc), Vec::new(alloc))),
    };
    let Some((meter, contracts)) = bodies else {
        let what = refused(&rejection.fault);
        return Ok(Some(format!(in alloc; "{what}; a file can't be read a second time")?));
    };
    let inputs = PeriodInputs {
        meter: PeriodText {
            path: words.meter,
            body: &meter,
        },
        contracts: PeriodText {
            path: words.contracts,
            body: &contracts,
        },
        price: words.price,
    };
    Ok(Some(period_refused(alloc, &inputs, rejection)?))
}

/// Explains why a file with a key can't be read.
pub(crate) fn explain_unreadable<H: Host, E: Sink>(
    alloc: Global,
    host: &H,
    path: &str,
    err: &mut E,
) {
    let _ = tell(alloc, err, of_unreadable(alloc, host, path));
}

/// Tells an explanation, if there is one.
pub(crate) fn tell<E: Sink>(
    alloc: Global,
    err: &mut E,
    explanation: Explanation,
) -> Result<(), AllocError> {
    if let Some(text) = explanation? {
        let mut line = one_line(alloc, text.as_str())?;
        line.push_str("\n")?;
        let _ = write_whole(err, line.as_bytes());
    }
    Ok(())
}
