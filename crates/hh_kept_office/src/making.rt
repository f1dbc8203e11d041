//! Making an office in a database.

ghost use Rattle.std.specs.Prelude.{◌≡◌, ◌≢◌, Err, IfErr, IsErrOf, IsTrue, OnOk};
ghost use Rattle.std.specs.Io.KnownBytes.{Appends};
ghost use Rattle.sqlite.specs.Held.{state};
ghost use Rattle.hh_devices.specs.Devices.{AppendsFront, Failed};
ghost use Rattle.hh_names.specs.declared.fault.Refusal.TheVariants.{Store};
ghost use Rattle.hh_names.specs.Faults.{plain_fault};
ghost use Rattle.hh_sqlstore.specs.Holds.{IsNewOffice};
ghost use Rattle.hh_sqlstore.specs.Leaving.{LeavesDatabase};
ghost use Rattle.hh_sqlstore.specs.Making.{MayMake};
ghost use Rattle.hh_sqlstore.specs.OfficeSchema.{nothing};
ghost use Rattle.hh_kept_office.specs.Kept.{ready_line};

use hh_devices::{Sink, write_whole};
use hh_names::Fault;
use hh_rows::Settings;
use hh_session::ErrandStop;
use hh_sqlstore::SqlTables;
use sqlite::{Alter, Connection};
use std::alloc::Global;

/// Makes the tables of an office with these settings in an empty database, writes `ready`, and returns the
/// connection.
///
/// # Errors
///
/// `Refused`: the tables are not made, nothing is written, and the database is as it was. `Output`: the
/// output failed or took nothing, and the tables are made.
pub fn make_office_in_database<S: Alter, O: Sink>(
    alloc: Global,
    connection: Connection<S>,
    settings: Settings,
    out: &mut O,
) -> (Result<(), ErrandStop>, Connection<S>)
    ensures made { OnOk result.0 (IsTrue (state S.Store result.1).is_open
        → IsNewOffice settings (state S.Store result.1).committed) }
    ensures told { OnOk result.0 (Appends (O.taken out.old) (O.taken out.new) ready_line) }
    ensures well { OnOk result.0 (O.failures out.new ≡ O.failures out.old) }
    ensures untold { IsErrOf result.0 ErrandStop.Output → IsTrue (state S.Store result.1).is_open
        → IsNewOffice settings (state S.Store result.1).committed }
    ensures cut { IsErrOf result.0 ErrandStop.Output
        → AppendsFront (O.taken out.old) (O.taken out.new) ready_line }
    ensures failed { IsErrOf result.0 ErrandStop.Output
        → Failed (O.failures out.old) (O.failures out.new) }
    ensures undone { IfErr result.0 (λ stop. stop ≢ ErrandStop.Output
        → LeavesDatabase (state S.Store connection) (state S.Store result.1)) }
    ensures untouched { IfErr result.0 (λ stop. stop ≢ ErrandStop.Output → out.new ≡ out.old) }
    ensures foreign { (state S.Store connection).now.schema ≢ nothing
        → result.0 ≡ Err (ErrandStop.Refused (plain_fault Store)) }
    ensures crash { MayMake settings (state S.Store connection) (state S.Store result.1) }
{
    match SqlTables::create(alloc, connection, settings) {
        Ok(tables) => {
            let connection = tables.into_connection();
            match write_whole(out, b"ready\n") {
                Ok(()) => (Ok(()), connection),
                Err(failed) => (Err(ErrandStop::from(failed)), connection),
            }
        }
        Err((fault, connection)) => (Err(ErrandStop::Refused(Fault::from(fault))), connection),
    }
}
