//! Disks in memory, of which one may fail, and databases over them.

use sqlite::{Connection, FileStore, Files, Options};
use sqlite_disk::{Crash, Disk, Fuse, Memory};
use std::alloc::Global;
use std::io;

/// A disk in memory that lets so many calls pass, and then fails each one.
pub type FusedDisk = Fuse<Memory>;

/// Which of the two files of a database is on a disk that fails.
#[derive(Clone, Copy, Debug, PartialEq, Eq)]
pub enum Failing {
    Log,
    Database,
}

/// How much of a database is kept in memory.
#[derive(Clone, Copy, Debug, PartialEq, Eq)]
pub enum Caches {
    /// As much as the program keeps: the database's file is written when it is closed.
    Large,
    /// So little that pages are written, and the log is copied into the database's file, before that.
    Small,
}

impl Caches {
    fn options(self) -> Options {
        match self {
            Caches::Large => Options::new(1),
            Caches::Small => Options {
                cache_pages: 2,
                spill_pages: 4,
                checkpoint_frames: 8,
                seed: 1,
            },
        }
    }
}

/// What a machine loses when it stops.
#[derive(Clone, Copy, Debug, PartialEq, Eq)]
pub enum Loss {
    /// Nothing that was written.
    Nothing,
    /// Everything that was not synced.
    Unsynced,
}

/// Disks without bytes, which don't fail.
pub fn new_disks(alloc: Global) -> Files<FusedDisk> {
    Files {
        log: Fuse::new(Memory::new(alloc), u64::MAX),
        db: Fuse::new(Memory::new(alloc), u64::MAX),
    }
}

/// Disks with the bytes of these, of which one lets `calls` calls pass.
pub fn failing_disks(
    alloc: Global,
    files: &Files<FusedDisk>,
    failing: Failing,
    calls: u64,
) -> io::Result<Files<FusedDisk>> {
    let (log, db) = match failing {
        Failing::Log => (calls, u64::MAX),
        Failing::Database => (u64::MAX, calls),
    };
    Ok(Files {
        log: copied(alloc, &files.log, log)?,
        db: copied(alloc, &files.db, db)?,
    })
}

/// Disks with what these disks have after this loss, which don't fail.
pub fn left_by(
    alloc: Global,
    stopped: &mut Files<FusedDisk>,
    loss: Loss,
) -> io::Result<Files<FusedDisk>> {
    if loss == Loss::Unsynced {
        stopped.log.crash();
        stopped.db.crash();
    }
    failing_disks(alloc, stopped, Failing::Log, u64::MAX)
}

/// A disk with the bytes of another, which lets `calls` calls pass.
fn copied(alloc: Global, disk: &FusedDisk, calls: u64) -> io::Result<FusedDisk> {
    let mut memory = Memory::new(alloc);
    memory.write_at(0, disk.inner().bytes())?;
    memory.sync()?;
    Ok(Fuse::new(memory, calls))
}

/// Opens the database over two disks. The disks are returned if it is not opened.
pub fn open<D: Disk + Drop>(
    alloc: Global,
    files: Files<D>,
    caches: Caches,
) -> Result<Connection<FileStore<D>>, Files<D>> {
    if !files.may_be_used() {
        return Err(files);
    }
    match Connection::open_files(alloc, files, caches.options()) {
        Ok(connection) => Ok(connection),
        Err((_, left)) => Err(left.into_files()),
    }
}

/// Whether a database is opened over two disks.
pub fn is_opened<D: Disk + Drop>(alloc: Global, files: Files<D>, caches: Caches) -> bool {
    open(alloc, files, caches).is_ok()
}
