//! The command `office`: a script run over the office in a database file. And how such files are opened.

use crate::measures::Watch;
use crate::stop::TrialStop;
use hh_devices::StreamSink;
use hh_host::{Host, RuntimeHost};
use hh_inputs::InputFault;
use hh_names::Refusal;
use hh_office::Office;
use hh_rows::Settings;
use hh_script::{ScriptFault, ScriptLine, read_script};
use hh_session::{MOST_SCRIPT_BYTES, NoNotes, run_lines};
use hh_sqlstore::{Rising, SqlTables};
use hh_time::london;
use sqlite::{Connection, FileStore, Options};
use sqlite_disk::{Disk, Files};
use sqlite_std_file::{File, OpenError, Unknown};
use std::alloc::Global;
use std::hash::{BuildHasher, RandomState};

/// How many pages of 4,096 bytes are kept in memory. A market day takes some 12,000.
const PAGES: usize = 16_384;

/// The options of a database, with a number for its log. With few pages in memory pages are written, and the
/// log is copied into the database's file, while lines are run.
fn options_of(is_small: bool, seed: u64) -> Options {
    let mut options = Options::new(seed);
    if is_small {
        options.checkpoint_frames = 8;
    }
    options.cache_pages = if is_small { 2 } else { PAGES };
    options.spill_pages = if is_small { 4 } else { PAGES };
    options
}

/// Runs the script at a path over the office in the files at another, which is made if settings are given.
/// With few pages in memory, a line that is refused is the last. Prints on standard error the nanoseconds
/// that it took to open the files, and then those of the rest.
pub(crate) fn run_office(
    rt: &HostRuntime,
    database: &str,
    script: &str,
    is_small: bool,
    made: Option<Settings>,
) -> Result<(), TrialStop> {
    let script = script_of(rt, &RuntimeHost(rt), script)?;
    let lines = match read_script(rt.alloc(), &script) {
        Ok(lines) => lines,
        Err(ScriptFault::BadLine { .. }) => return Err(TrialStop::Words),
        Err(ScriptFault::Memory) => return Err(TrialStop::no_memory()),
    };
    let options = options_of(is_small, RandomState::new(rt)?.hash_one(&0u8));
    let watch = Watch::start(rt)?;
    let connection = open(rt.alloc(), files_at(rt, database)?, options)?;
    let (opened, watch) = (watch.stop(rt), Watch::start(rt));
    let closed = run_over(rt, connection, made, is_small, &lines);
    opened?;
    watch?.stop(rt)?;
    closed
}

/// Runs the lines over the office in a database, which is made if settings are given. Closes the database.
fn run_over<D: Disk + Drop>(
    rt: &HostRuntime,
    connection: Connection<FileStore<D>>,
    made: Option<Settings>,
    strict: bool,
    lines: &[ScriptLine<'_>],
) -> Result<(), TrialStop> {
    let (ran, connection) = run_in(rt, connection, made, strict, lines);
    let closed = connection.close();
    ran?;
    Ok(closed?)
}

/// Runs them, and returns the connection.
fn run_in<S: Rising>(
    rt: &HostRuntime,
    connection: Connection<S>,
    made: Option<Settings>,
    strict: bool,
    lines: &[ScriptLine<'_>],
) -> (Result<(), TrialStop>, Connection<S>) {
    let tables = match made {
        Some(settings) => SqlTables::create(rt.alloc(), connection, settings),
        None => SqlTables::adopt(rt.alloc(), connection),
    };
    let tables = match tables {
        Ok(tables) => tables,
        Err((fault, connection)) => return (Err(TrialStop::from(fault)), connection),
    };
    let (alloc, host) = (rt.alloc(), RuntimeHost(rt));
    let mut office = Office::new(alloc, tables, london());
    let mut out = StreamSink::new(rt.stdout());
    let notes = &mut NoNotes;
    let ran = run_lines(alloc, &mut office, &host, lines, strict, notes, &mut out);
    let ran = ran.ok().ok_or(TrialStop::Output);
    (ran, office.into_tables().into_connection())
}

/// The bytes of a script. A script with too many bytes is refused.
fn script_of<H: Host>(rt: &HostRuntime, host: &H, path: &str) -> Result<Vec<u8>, TrialStop> {
    match host.read(rt.alloc(), path, MOST_SCRIPT_BYTES) {
        Ok(bytes) => Ok(bytes),
        Err(InputFault::Unreadable) => Err(TrialStop::Input),
        Err(InputFault::Memory) => Err(TrialStop::no_memory()),
    }
}

/// The files at a path. They are made if they are not there.
pub(crate) fn files_at(rt: &HostRuntime, path: &str) -> Result<Files<File>, TrialStop> {
    match sqlite_std_file::open(rt, path, Unknown) {
        Ok(files) => Ok(files),
        Err(OpenError::OutOfMemory) => Err(TrialStop::no_memory()),
        Err(_) => Err(TrialStop::Refused(Refusal::Store)),
    }
}

/// Opens a database.
pub(crate) fn open<D: Disk + Drop>(
    alloc: Global,
    files: Files<D>,
    options: Options,
) -> Result<Connection<FileStore<D>>, TrialStop> {
    if !files.may_be_used() {
        return Err(TrialStop::Refused(Refusal::Store));
    }
    match Connection::open_files(alloc, files, options) {
        Ok(connection) => Ok(connection),
        Err((error, _)) => Err(TrialStop::from(error)),
    }
}
