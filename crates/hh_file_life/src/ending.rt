//! The end of a command over the files of a database.

ghost use Rattle.std.specs.Prelude.{◌≢◌, IfSome};
ghost use Rattle.sqlite_wal.specs.Files.{outcomes};
ghost use Rattle.sqlite_wal.specs.Reads.{AreClean};
ghost use Rattle.sqlite_wal.specs.Recovery.{Image};
ghost use Rattle.sqlite.specs.State.{HasCleanDisk};
ghost use Rattle.sqlite.specs.Files.{file_state};
ghost use Rattle.hh_file_life.specs.Life.{AreUsable, LeaveOnly};

use crate::life::Ending;
use sqlite::{Connection, FileStore, Files};
use sqlite_disk::{Crash, Disk};

/// Ends a command in one of the ways, and returns its files. It is `None` if they are not closed.
pub(crate) fn end<D: Crash + Drop>(
    connection: Connection<FileStore<D>>,
    ending: Ending,
) -> Option<Files<D>>
    ensures usable { ending ≢ Ending.Left → IfSome result (AreUsable D.Disk) }
    ensures honest { IfSome result (λ files. AreClean D.Disk files.log files.db
        → HasCleanDisk (file_state connection)) }
    ensures left { IfSome result (λ files. AreClean D.Disk files.log files.db
        → LeaveOnly D.Disk files (file_state connection).may_leave) }
{
    match ending {
        Ending::Closed => close(connection),
        Ending::Left => {
            let files = leave(connection);
            Some(files)
        }
        Ending::Crashed => {
            let files = leave_crashed(connection);
            Some(files)
        }
    }
}

/// Closes the files of a connection: its log is copied into the database. It is `None` if that fails.
fn close<D: Disk + Drop>(connection: Connection<FileStore<D>>) -> Option<Files<D>>
    ensures usable { IfSome result (AreUsable D.Disk) }
    ensures honest { IfSome result (λ files. AreClean D.Disk files.log files.db
        → HasCleanDisk (file_state connection)) }
    ensures left { IfSome result (λ files. AreClean D.Disk files.log files.db
        → LeaveOnly D.Disk files (file_state connection).may_leave) }
{
    match connection.close_files() {
        Ok(files) => Some(files),
        Err((_, store)) => {
            drop(store.close());
            None
        }
    }
}

/// The files of a connection as they are, whatever its state is.
fn leave<D: Disk + Drop>(connection: Connection<FileStore<D>>) -> Files<D>
    ensures honest { AreClean D.Disk result.log result.db → HasCleanDisk (file_state connection) }
    ensures left { AreClean D.Disk result.log result.db
        → LeaveOnly D.Disk result (file_state connection).may_leave }
{
    connection.into_store().close()
}

/// The files of a connection, after a crash of the machine.
fn leave_crashed<D: Crash + Drop>(connection: Connection<FileStore<D>>) -> Files<D>
    ensures usable { AreUsable D.Disk result }
    ensures honest { AreClean D.Disk result.log result.db → HasCleanDisk (file_state connection) }
    ensures left { AreClean D.Disk result.log result.db
        → LeaveOnly D.Disk result (file_state connection).may_leave }
{
    let mut files = leave(connection);
    crash(&mut files);
    files
}

/// The machine crashes, and starts again.
fn crash<D: Crash>(files: &mut Files<D>)
    ensures usable { AreUsable D.Disk files.new }
    ensures honest { AreClean D.Disk files.new.log files.new.db
        → AreClean D.Disk files.old.log files.old.db }
    ensures left { (image : Image) → outcomes D.Disk files.new.log files.new.db image
        → outcomes D.Disk files.old.log files.old.db image }
{
    files.log.crash();
    files.db.crash();
}
