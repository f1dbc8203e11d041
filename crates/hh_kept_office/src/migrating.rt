//! Taking an office in a database, or at a path, to the present version.

ghost use Rattle.std.specs.Prelude.{◌≡◌, ◌≢◌, Err, IfErr, IsErrOf, OnOk};
ghost use Rattle.std.specs.Io.KnownBytes.{Appends};
ghost use Rattle.sqlite.specs.Held.{state};
ghost use Rattle.sqlite.specs.State.{HasCleanDisk};
ghost use Rattle.hh_devices.specs.DeviceChanges.{change};
ghost use Rattle.hh_devices.specs.Devices.{AppendsFront, Failed};
ghost use Rattle.hh_names.specs.declared.fault.Refusal.TheVariants.{Store};
ghost use Rattle.hh_names.specs.Faults.{plain_fault};
ghost use Rattle.hh_sqlrows.specs.Reads.{IsHonest};
ghost use Rattle.hh_sqlmigration.specs.Versions.{IsMigrated, MayMigrate};
ghost use Rattle.hh_sqlstore.specs.Leaving.{LeavesDatabase};
ghost use Rattle.hh_sqlstore.specs.OfficeSchema.{office, office_of_one};
ghost use Rattle.hh_kept_office.specs.Kept.{IsRefusedByStore, version_line};
ghost use Rattle.hh_kept_office.specs.Paths.{MigratesAt};
ghost use Rattle.hh_kept_office.specs.Places.{places_of, shown_by};

use crate::path::PathStop;
use crate::place::DatabaseHost;
use hh_devices::{Sink, write_whole};
use hh_names::Fault;
use hh_session::ErrandStop;
use hh_sqlstore::{Rising, SqlTables};
use sqlite::Connection;
use std::alloc::Global;

/// Takes the office in a database to the present version, writes that version, and returns the connection.
/// An office of the present version stays as it is.
///
/// # Errors
///
/// `Refused`: nothing is written, and the database is as it was: with 91 if its tables are not those of an
/// office of a version that is known. `Output`: the output failed or took nothing, and the office is of the
/// present version.
pub fn migrate_in_database<S: Rising, O: Sink>(
    alloc: Global,
    connection: Connection<S>,
    out: &mut O,
) -> (Result<(), ErrandStop>, Connection<S>)
    ensures migrated { HasCleanDisk (state S.Store result.1)
        → OnOk result.0 (IsMigrated (state S.Store connection) (state S.Store result.1)) }
    ensures told { OnOk result.0 (Appends (O.taken out.old) (O.taken out.new) version_line) }
    ensures well { OnOk result.0 (O.failures out.new ≡ O.failures out.old) }
    ensures untold { IsErrOf result.0 ErrandStop.Output → HasCleanDisk (state S.Store result.1)
        → IsMigrated (state S.Store connection) (state S.Store result.1) }
    ensures cut { IsErrOf result.0 ErrandStop.Output
        → AppendsFront (O.taken out.old) (O.taken out.new) version_line }
    ensures failed { IsErrOf result.0 ErrandStop.Output
        → Failed (O.failures out.old) (O.failures out.new) }
    ensures refused { IfErr result.0 (λ stop. stop ≢ ErrandStop.Output → IsRefusedByStore stop) }
    ensures undone { IfErr result.0 (λ stop. stop ≢ ErrandStop.Output
        → LeavesDatabase (state S.Store connection) (state S.Store result.1)) }
    ensures untouched { IfErr result.0 (λ stop. stop ≢ ErrandStop.Output → out.new ≡ out.old) }
    ensures foreign { let schema = (state S.Store connection).now.schema in
        schema ≢ office_of_one → schema ≢ office
        → result.0 ≡ Err (ErrandStop.Refused (plain_fault Store)) }
    ensures crash { MayMigrate (state S.Store connection) (state S.Store result.1) }
    ensures honest { IsHonest (state S.Store connection) (state S.Store result.1) }
{
    let (migrated, connection) = SqlTables::migrate(alloc, connection);
    match migrated {
        Ok(()) => match write_whole(out, b"version 2\n") {
            Ok(()) => (Ok(()), connection),
            Err(failed) => (Err(ErrandStop::from(failed)), connection),
        },
        Err(fault) => (Err(ErrandStop::Refused(Fault::from(fault))), connection),
    }
}

/// Takes the office at a path to the present version, and writes that version.
///
/// # Errors
///
/// `NoFile`: there is nothing at the path. `Errand`: the path cannot be looked at, or the database cannot
/// be opened; or as for `migrate_in_database`.
pub fn migrate_at<S: Rising, D: DatabaseHost<Connection = Connection<S>>, O: Sink>(
    alloc: Global,
    host: &D,
    path: &str,
    out: &mut O,
) -> Result<(), PathStop>
    ensures migrates { MigratesAt
        (places_of D.finds D.refuses D.opens D.closes D.discards (shown_by S.Store) host.now)
        path.now (change O.taken O.failures out.old out.new) result }
    ensures well { OnOk result (O.failures out.new ≡ O.failures out.old) }
    ensures untouched { IfErr result (λ stop. stop ≢ PathStop.Errand ErrandStop.Output
        → out.new ≡ out.old) }
{
    if !host.exists(path)? {
        return Err(PathStop::NoFile);
    }
    let connection = host.open(path)?;
    let (ended, connection) = migrate_in_database(alloc, connection, out);
    host.close(path, connection);
    ended?;
    Ok(())
}
