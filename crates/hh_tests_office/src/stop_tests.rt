//! Tests of what no clause says of files that are opened again: wherever a disk stops during a migration,
//! the database is of version 1 or of version 2, whole, and the next migration ends the work.

use crate::disks::{Caches, Failing, FusedDisk, Loss, failing_disks, is_opened, left_by, open};
use crate::versions::{closed, made_older, migrated, registered, reopened, told_by};
use hh_sqlstore::{Rising, SqlTables};
use hh_store::StoreFault;
use sqlite::{Connection, FileStore, Files};
use sqlite_disk::Disk;
use std::alloc::Global;

/// More rounds than any sweep has.
const MOST_ROUNDS: u64 = 100_000;

/// Steps that come to each number of calls below 4,096.
const STEPS: [u64; 12] = [2048, 1024, 512, 256, 128, 64, 32, 16, 8, 4, 2, 1];

/// An office's database of version 1, what it tells, and what it tells once it is migrated.
#[derive(Drop)]
struct Older {
    files: Files<FusedDisk>,
    older: String,
    newer: String,
}

/// The database of an office of version 1 that has parties and units.
fn office_of_one(alloc: Global) -> Option<Older> {
    let connection = reopened(alloc, &registered(alloc)?)?;
    let (files, older, newer) = told_and_closed(alloc, connection)?;
    Some(Older {
        files,
        older,
        newer,
    })
}

/// Makes an office's database one of version 1, and closes it. Its disks, what it tells, and what it told
/// before that.
fn told_and_closed<D: Disk + Drop>(
    alloc: Global,
    mut connection: Connection<FileStore<D>>,
) -> Option<(Files<D>, String, String)> {
    let newer = made_older(alloc, &mut connection)?;
    let older = told_by(alloc, &mut connection)?;
    Some((closed(connection)?, older, newer))
}

/// How far a migration came.
#[derive(Clone, Copy, Debug, PartialEq, Eq)]
enum Stop {
    /// The database was not opened.
    Unopened,
    /// The migration was refused.
    Refused,
    /// The office was migrated, and its database was not closed.
    Unclosed,
    /// The database was closed.
    Closed,
}

impl Older {
    /// Whether a database may tell this after a stop.
    fn has(&self, stop: Stop, text: &str) -> bool {
        let is_older = text == self.older.as_str();
        let is_newer = text == self.newer.as_str();
        match stop {
            Stop::Unopened => is_older,
            Stop::Refused => is_older || is_newer,
            Stop::Unclosed | Stop::Closed => is_newer,
        }
    }
}

/// Migrates the database on these disks. How far that came, and the disks, or nothing if memory was refused.
fn until_stop<D: Disk + Drop>(
    alloc: Global,
    files: Files<D>,
    caches: Caches,
) -> Option<(Stop, Files<D>)> {
    let connection = match open(alloc, files, caches) {
        Ok(connection) => connection,
        Err(files) => return Some((Stop::Unopened, files)),
    };
    let (done, connection) = SqlTables::migrate(alloc, connection);
    match done {
        Ok(()) => Some(until_closed(connection)),
        Err(StoreFault::Store) => Some((Stop::Refused, connection.into_store().close())),
        Err(StoreFault::Memory) => None,
    }
}

/// Closes a database.
fn until_closed<D: Disk + Drop>(connection: Connection<FileStore<D>>) -> (Stop, Files<D>) {
    match connection.close_files() {
        Ok(files) => (Stop::Closed, files),
        Err((_, store)) => (Stop::Unclosed, store.close()),
    }
}

/// Whether these disks have one version after a stop, whole, and are migrated then.
fn goes_on<D: Disk + Drop>(alloc: Global, office: &Older, stop: Stop, files: Files<D>) -> bool {
    match open(alloc, files, Caches::Large) {
        Ok(connection) => is_whole(alloc, office, stop, connection),
        Err(_) => false,
    }
}

/// Whether a database has one version after a stop, whole, and is migrated then.
fn is_whole<S: Rising + Drop>(
    alloc: Global,
    office: &Older,
    stop: Stop,
    mut connection: Connection<S>,
) -> bool {
    let told = told_by(alloc, &mut connection);
    let (done, _connection) = migrated(alloc, connection, Ok(()), office.newer.as_str());
    match told {
        Some(text) => done && office.has(stop, text.as_str()),
        None => false,
    }
}

/// Migrates an office on disks of which one lets `calls` calls pass, and goes on from there after each loss.
/// How far the first migration came.
fn make_round(
    alloc: Global,
    office: &Older,
    failing: Failing,
    caches: Caches,
    calls: u64,
) -> Option<Stop> {
    let files = failing_disks(alloc, &office.files, failing, calls).ok()?;
    let (stop, mut stopped) = until_stop(alloc, files, caches)?;
    for loss in [Loss::Nothing, Loss::Unsynced] {
        let left = left_by(alloc, &mut stopped, loss).ok()?;
        if !goes_on(alloc, office, stop, left) {
            return None;
        }
    }
    Some(stop)
}

/// The most calls with which a disk fails while the database is opened.
fn most_to_open(alloc: Global, office: &Older, failing: Failing, caches: Caches) -> Option<u64> {
    let mut most = 0u64;
    for step in STEPS {
        let calls = most.saturating_add(step);
        let files = failing_disks(alloc, &office.files, failing, calls).ok()?;
        if !is_opened(alloc, files, caches) {
            most = calls;
        }
    }
    Some(most)
}

/// Whether rounds of a sweep stopped while the office was migrated, and while its database was closed. In
/// the first round a disk fails at the end of the opening. In each later one it fails one call later, until
/// it doesn't fail. Nothing if anything is wrong.
fn sweep(alloc: Global, failing: Failing, caches: Caches) -> Option<(bool, bool)> {
    let office = office_of_one(alloc)?;
    let first = most_to_open(alloc, &office, failing, caches)?;
    let (mut migrating, mut closing) = (false, false);
    for more in 0..MOST_ROUNDS {
        let calls = first.saturating_add(more);
        match make_round(alloc, &office, failing, caches, calls)? {
            Stop::Unopened => {}
            Stop::Refused => migrating = true,
            Stop::Unclosed => closing = true,
            Stop::Closed => return Some((migrating, closing)),
        }
    }
    None
}

#[test]
fn the_log_stops(rt: HostRuntime) {
    let stops = sweep(rt.alloc(), Failing::Log, Caches::Large);
    assert!(rt; stops == Some((true, true)));
}

#[test]
fn the_database_stops(rt: HostRuntime) {
    let stops = sweep(rt.alloc(), Failing::Database, Caches::Large);
    assert!(rt; stops == Some((false, true)));
}

#[test]
fn the_log_stops_with_small_caches(rt: HostRuntime) {
    let stops = sweep(rt.alloc(), Failing::Log, Caches::Small);
    assert!(rt; stops == Some((true, true)));
}

#[test]
fn the_database_stops_with_small_caches(rt: HostRuntime) {
    let stops = sweep(rt.alloc(), Failing::Database, Caches::Small);
    assert!(rt; stops == Some((true, true)));
}
