//! Scripts that are run over an office at a path.

ghost use Rattle.std.specs.Prelude.{◌≡◌, IfErr, IsTrue, OnOk};
ghost use Rattle.sqlite.specs.Held.{state};
ghost use Rattle.hh_devices.specs.DeviceChanges.{change};
ghost use Rattle.hh_session.specs.ScriptStops.{IsUnrun};
ghost use Rattle.hh_sqlstore.specs.Stores.{content_in};
ghost use Rattle.hh_kept_office.specs.Places.{connected, places_of, shown_by};
ghost use Rattle.hh_kept_office.specs.Scripts.{EndsScript, IsUnrunAt, RunsFile};
ghost use Rattle.hh_kept_office.specs.steps.Scripts.{RunsFileOver, stop_of};

use crate::place::DatabaseHost;
use crate::running::run_over_database;
use crate::stop::DatabaseStop;
use hh_devices::Sink;
use hh_host::Host;
use hh_names::Fault;
use hh_script::read_script;
use hh_session::{Notes, ScriptStop, read_script_file};
use hh_sqlstore::{Rising, SqlTables};
use hh_store::StoreFault;
use sqlite::Connection;
use std::alloc::Global;

/// Why a script is not run over an office at a path, or not to its end.
#[derive(Clone, Copy, Debug, PartialEq, Eq)]
pub enum ScriptPathStop {
    /// There is nothing at the path.
    NoFile,
    /// The database cannot be opened. Nothing was run.
    Unopened(StoreFault),
    /// The script is not run, or not to its end; or the tables are not taken over.
    Script(ScriptStop),
}

impl From<StoreFault> for ScriptPathStop {
    ghost use Rattle.hh_kept_office.specs.declared.scripts.ScriptPathStop.TheVariants.{Unopened};

    ghost from_gives = { λ fault stop. stop ≡ Unopened fault };

    fn from(fault: StoreFault) -> ScriptPathStop {
        ScriptPathStop::Unopened(fault)
    }
}

impl From<ScriptStop> for ScriptPathStop {
    ghost use Rattle.hh_kept_office.specs.declared.scripts.ScriptPathStop.TheVariants.{Script};

    ghost from_gives = { λ why stop. stop ≡ Script why };

    fn from(why: ScriptStop) -> ScriptPathStop {
        ScriptPathStop::Script(why)
    }
}

/// Runs the script in a file over the office at a path, and writes what comes of each line, as `run_script`
/// does. The database is opened once for all lines. Each line is a transaction of its own.
///
/// # Errors
///
/// `NoFile`: there is nothing at the path. `Unopened`: the path cannot be looked at, or the database cannot
/// be opened. Otherwise as for `run_script`. Also `Refused` if the tables are not taken over, which is
/// found out before the script is read. Nothing was run and nothing written, unless the error is `Early`.
pub fn run_script_at<S: Rising, D: DatabaseHost<Connection = Connection<S>>, N: Notes, O: Sink>(
    alloc: Global,
    host: &D,
    path: &str,
    file: &str,
    strict: bool,
    notes: &mut N,
    out: &mut O,
) -> Result<(), ScriptPathStop>
    ensures ends { EndsScript (D.view host.now) (change O.taken O.failures out.old out.new)
        file.now strict
        (places_of D.finds D.refuses D.opens D.closes D.discards (shown_by S.Store) host.now)
        path.now result }
    ensures well { OnOk result (O.failures out.new ≡ O.failures out.old) }
    ensures untouched { IfErr result (λ stop. IsUnrunAt stop → out.new ≡ out.old) }
{
    if !host.exists(path)? {
        return Err(ScriptPathStop::NoFile);
    }
    let connection = host.open(path)?;
    let (ended, connection) = run_file(alloc, connection, host, file, strict, notes, out);
    host.close(path, connection);
    ended?;
    Ok(())
}

/// Runs the script in a file over the office in a database, and returns the connection. The script is read
/// after the tables are taken over.
fn run_file<S: Rising, H: Host, N: Notes, O: Sink>(
    alloc: Global,
    connection: Connection<S>,
    host: &H,
    file: &str,
    strict: bool,
    notes: &mut N,
    out: &mut O,
) -> (Result<(), ScriptStop>, Connection<S>)
    ensures runs { RunsFile (H.view host.now) (change O.taken O.failures out.old out.new) file.now
        strict (connected (state S.Store connection)) (connected (state S.Store result.1)) result.0 }
    ensures well { OnOk result.0 (O.failures out.new ≡ O.failures out.old) }
    ensures untouched { IfErr result.0 (λ stop. IsUnrun stop → out.new ≡ out.old) }
{
    match SqlTables::adopt(alloc, connection) {
        Ok(tables) => run_file_over(alloc, tables, host, file, strict, notes, out),
        Err((fault, connection)) => (Err(ScriptStop::Refused(Fault::from(fault))), connection),
    }
}

/// Runs the script in a file over an office with these tables, and returns their connection.
fn run_file_over<S: Rising, H: Host, N: Notes, O: Sink>(
    alloc: Global,
    tables: SqlTables<S>,
    host: &H,
    file: &str,
    strict: bool,
    notes: &mut N,
    out: &mut O,
) -> (Result<(), ScriptStop>, Connection<S>)
    ensures runs { RunsFileOver (H.view host.now) (change O.taken O.failures out.old out.new)
        file.now strict (content_in S.Store tables) (connected (state S.Store tables.connection))
        (connected (state S.Store result.1)) result.0 }
    ensures well { OnOk result.0 (O.failures out.new ≡ O.failures out.old) }
    ensures untouched { IfErr result.0 (λ stop. IsUnrun stop → out.new ≡ out.old) }
    ensures sure { IsTrue (state S.Store result.1).is_open
        → IsTrue (state S.Store tables.connection).is_open }
{
    let bytes = match read_script_file(alloc, host, file) {
        Ok(bytes) => bytes,
        Err(stop) => return (Err(stop), tables.into_connection()),
    };
    let lines = match read_script(alloc, &bytes) {
        Ok(lines) => lines,
        Err(fault) => return (Err(ScriptStop::from(fault)), tables.into_connection()),
    };
    match run_over_database(alloc, tables, host, &lines, strict, notes, out) {
        Ok(after) => (Ok(()), after.into_connection()),
        Err((stop, after)) => (Err(stop_of(stop)), after.into_connection()),
    }
}

/// Why a script is not run, or not to its end, over a database.
fn stop_of(stop: DatabaseStop) -> ScriptStop
    ensures { result ≡ stop_of stop }
{
    match stop {
        DatabaseStop::Early(why) => ScriptStop::Early(why),
        DatabaseStop::Refused(fault) => ScriptStop::Refused(Fault::from(fault)),
    }
}
