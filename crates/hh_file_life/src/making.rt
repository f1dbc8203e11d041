//! The first command over the files of a database: it makes an office.

ghost use Rattle.std.specs.Prelude.{◌≢◌, IfOk};
ghost use Rattle.sqlite.specs.Held.{state};
ghost use Rattle.sqlite.specs.State.{HasCleanDisk};
ghost use Rattle.hh_file_life.specs.Life.{AreUsable, LeavesNew};
ghost use Rattle.hh_file_life.specs.steps.Answers.{HoldsNew};

use crate::ending::end;
use crate::life::{Ending, LifeStop};
use crate::opening::connect;
use hh_rows::Settings;
use hh_sqlstore::SqlTables;
use hh_store::StoreFault;
use sqlite::{Alter, Connection, Files};
use sqlite_disk::Crash;
use std::alloc::Global;

/// Makes the tables of an office with these settings, in which nothing has been accepted. The files must be
/// new, or their database must have no table. Then it ends in the given way.
///
/// # Errors
///
/// `Unmade`: the tables were not made, for a fault as of `SqlTables::create`. `Unusable`, `Unopened` and
/// `Unclosed` as for `run_once`. The files are not returned then.
pub fn make_office<D: Crash + Drop>(
    alloc: Global,
    files: Files<D>,
    settings: Settings,
    ending: Ending,
) -> Result<Files<D>, LifeStop>
    ensures usable { ending ≢ Ending.Left → IfOk result (AreUsable D.Disk) }
    ensures made { IfOk result (LeavesNew D.Disk settings) }
{
    // Does nothing, but carries a fact for the proof: the settings are those of an office.
    settings.are_settings();
    let connection = match connect(alloc, files) {
        Ok(connection) => connection,
        Err(stop) => return Err(stop),
    };
    let connection = match create(alloc, connection, settings) {
        Ok(connection) => connection,
        Err((fault, connection)) => {
            drop(connection.into_store().close());
            return Err(LifeStop::Unmade(fault));
        }
    };
    match end(connection, ending) {
        Some(last) => Ok(last),
        None => Err(LifeStop::Unclosed),
    }
}

/// Makes the tables over a connection.
fn create<S: Alter>(
    alloc: Global,
    connection: Connection<S>,
    settings: Settings,
) -> Result<Connection<S>, (StoreFault, Connection<S>)>
    ensures { IfOk result (λ made. HoldsNew settings (state S.Store made)) }
{
    match SqlTables::create(alloc, connection, settings) {
        Ok(tables) => Ok(tables.into_connection()),
        Err((fault, connection)) => Err((fault, connection)),
    }
}
