//! Commands over the files of an office's database, from the first to the last.

ghost use Rattle.std.specs.Prelude.{◌≢◌, IfOk};
ghost use Rattle.jiff.specs.Words.{plain_zone};
ghost use Rattle.sqlite_wal.specs.Reads.{AreClean};
ghost use Rattle.hh_time.specs.Zone.{midnight_in};
ghost use Rattle.hh_file_life.specs.Life.{AreUsable, Lives, LivesOnce};

use crate::answering::answer;
use crate::ending::end;
use crate::opening::connect;
use hh_requests::{Reply, Request};
use hh_store::StoreFault;
use jiff::tz::TimeZone;
use sqlite::Files;
use sqlite_disk::Crash;
use std::alloc::{AllocError, Global};

/// How the process of a command ends.
#[derive(Clone, Copy, Debug, PartialEq, Eq)]
pub enum Ending {
    /// It closes the files: the log is copied into the database.
    Closed,
    /// It is killed: the files stay as they are.
    Left,
    /// The machine crashes: what was not synced may be lost.
    Crashed,
}

/// What one command asks of the office, the moment at which it asks, in seconds since 1970-01-01T00:00:00Z,
/// and how the process of the command ends.
#[derive(Debug, Drop)]
pub struct FileCommand {
    pub moment: i64,
    pub request: Request,
    pub ending: Ending,
}

/// Why commands were not run to their end. The files are not returned then.
#[derive(Clone, Copy, Debug, PartialEq, Eq)]
pub enum LifeStop {
    /// Memory was refused for the list of replies, and nothing has run.
    Memory,
    /// A sync of a file has failed, so the file must not be used.
    Unusable,
    /// The database was not opened.
    Unopened,
    /// The tables of an office were not made, because of this fault.
    Unmade(StoreFault),
    /// The database was not closed.
    Unclosed,
}

impl From<AllocError> for LifeStop {
    ghost use Rattle.std.specs.Prelude.{◌≡◌};
    ghost use Rattle.hh_file_life.specs.declared.life.LifeStop.TheVariants.{Memory};

    ghost from_gives = { λ _ stop. stop ≡ Memory };

    fn from(_error: AllocError) -> LifeStop {
        LifeStop::Memory
    }
}

/// Runs one command over the files of an office's database, in a zone whose local midnights begin the
/// Settlement Days. It opens the files, takes the office's tables over, answers the request, and ends as
/// the command says. If the tables are not taken over, the reply refuses the request for that reason.
///
/// A stop inside a call is a disk of `sqlite_disk` too: a `Fuse` passes a number of calls on and refuses
/// all later ones.
///
/// # Errors
///
/// `Unusable`, `Unopened` and `Unclosed`. Nothing is promised about what is left then, and the files are
/// not returned.
pub fn run_once<D: Crash + Drop>(
    alloc: Global,
    files: Files<D>,
    zone: &TimeZone<'_>,
    command: &FileCommand,
) -> Result<(Reply, Files<D>), LifeStop>
    ensures usable { command.now.ending ≢ Ending.Left
        → IfOk result (λ ended. AreUsable D.Disk ended.1) }
    ensures honest { IfOk result (λ ended.
        AreClean D.Disk ended.1.log ended.1.db → AreClean D.Disk files.log files.db) }
    ensures life { IfOk result (λ ended. LivesOnce D.Disk (midnight_in (plain_zone zone.now))
        files command.now ended.0 ended.1) }
{
    let connection = match connect(alloc, files) {
        Ok(connection) => connection,
        Err(stop) => return Err(stop),
    };
    let (reply, connection) = answer(alloc, connection, zone, command);
    let Some(last) = end(connection, command.ending) else {
        return Err(LifeStop::Unclosed);
    };
    Ok((reply, last))
}

/// Runs commands one after the other, each over the files that the command before it has left. Memory for
/// the list of replies is taken first.
///
/// # Errors
///
/// `Memory`: memory for the list of replies was refused, and nothing has run. Otherwise as for `run_once`.
pub fn run_all<D: Crash + Drop>(
    alloc: Global,
    files: Files<D>,
    zone: &TimeZone<'_>,
    commands: &[FileCommand],
) -> Result<(Vec<Reply>, Files<D>), LifeStop>
    ensures honest { IfOk result (λ ended.
        AreClean D.Disk ended.1.log ended.1.db → AreClean D.Disk files.log files.db) }
    ensures life { IfOk result (λ ended. Lives D.Disk (midnight_in (plain_zone zone.now))
        files commands.now ended.0.items ended.1) }
{
    let mut replies = Vec::with_capacity(alloc, commands.len())?;
    let mut files = files;
    'commands: for command in commands.iter() {
        let (reply, next) = match run_once(alloc, files, zone, command) {
            Ok(ended) => ended,
            Err(stop) => return Err(stop),
        };
        let pushed = replies.push(reply);
        prove!(pushed.is_ok());
        files = next;
    }
    Ok((replies, files))
}
