//! The files of a database at a path of the system: the database itself, and its log beside it.

use hh_store::StoreFault;
use sqlite::{Connection, Error, ErrorCode, FileStore, Options};
use sqlite_std_file::{File, OpenError, Unknown};
use std::alloc::AllocError;
use std::fs::OpenOptions;
use std::hash::{BuildHasher, RandomState};
use std::io::{ErrorKind, Read};
use std::os::unix::fs::OpenOptionsExt;
use std::{fs, io};

/// How many pages of 4,096 bytes are kept in memory. A market day takes some 12,000.
const PAGES: usize = 16_384;

/// The permissions of a new database: its owner may read and write it, and others may read it.
const MODE: u32 = 0o644;

/// The bytes with which each database of SQLite 3 begins.
const FRONT: [u8; 16] = *b"SQLite format 3\0";

/// The fault of a store for a failed call of the system.
pub(crate) fn fault_of(error: io::Error) -> StoreFault {
    match error.kind() {
        ErrorKind::OutOfMemory => StoreFault::Memory,
        _ => StoreFault::Store,
    }
}

/// Makes an empty file at a path where there is none.
pub(crate) fn make_file(rt: &HostRuntime, path: &str) -> Result<(), StoreFault> {
    let mut options = OpenOptions::new();
    options.write(true).create_new(true).mode(MODE);
    match options.open(rt, path) {
        Ok(_) => Ok(()),
        Err(error) => Err(fault_of(error)),
    }
}

/// Removes a database and its log.
pub(crate) fn remove(rt: &HostRuntime, path: &str) {
    let _ = fs::remove_file(rt, path);
    if let Ok(log) = log_of(rt, path) {
        let _ = fs::remove_file(rt, log.as_str());
    }
}

/// Whether a path leads to a plain file, and not to a pipe or a device.
pub(crate) fn is_file(rt: &HostRuntime, path: &str) -> bool {
    match fs::metadata(rt, path) {
        Ok(found) => found.is_file(),
        Err(_) => false,
    }
}

/// Whether what is at a path is certainly no database, so that it is not opened: it is no file, or it
/// doesn't begin as a database does. A file with a log may be a database whose making was interrupted.
pub(crate) fn is_no_database(rt: &HostRuntime, path: &str) -> Result<bool, StoreFault> {
    // The log is beside the file to which a link leads.
    let path = fs::canonicalize(rt, path).map_err(fault_of)?;
    let found = fs::metadata(rt, path.as_str()).map_err(fault_of)?;
    if !found.is_file() {
        return Ok(true);
    }
    Ok(!has_log(rt, path.as_str())? && !begins_as_database(rt, path.as_str())?)
}

/// Whether the file at a path begins with the bytes that each database of SQLite 3 begins with.
fn begins_as_database(rt: &HostRuntime, path: &str) -> Result<bool, StoreFault> {
    let mut file = fs::open(rt, path).map_err(fault_of)?;
    let mut front = [0u8; 16];
    match file.read_exact(&mut front) {
        Ok(()) => Ok(front == FRONT),
        Err(error) if error.kind() == ErrorKind::UnexpectedEof => Ok(false),
        Err(error) => Err(fault_of(error)),
    }
}

/// Whether there is a log beside a path that is not empty.
pub(crate) fn has_log(rt: &HostRuntime, path: &str) -> Result<bool, StoreFault> {
    let log = log_of(rt, path)?;
    match fs::symlink_metadata(rt, log.as_str()) {
        Ok(found) => Ok(found.len() > 0),
        Err(error) => match error.kind() {
            ErrorKind::NotFound | ErrorKind::NotADirectory => Ok(false),
            _ => Err(fault_of(error)),
        },
    }
}

/// The path of the log of the database at a path.
fn log_of(rt: &HostRuntime, path: &str) -> Result<String, StoreFault> {
    match format!(in rt.alloc(); "{path}-wal") {
        Ok(log) => Ok(log),
        Err(AllocError) => Err(StoreFault::Memory),
    }
}

/// Opens the database at a path, or makes one in an empty file.
pub(crate) fn connect(
    rt: &HostRuntime,
    path: &str,
) -> Result<Connection<FileStore<File>>, StoreFault> {
    let files = match sqlite_std_file::open(rt, path, Unknown) {
        Ok(files) => files,
        Err(OpenError::OutOfMemory) => return Err(StoreFault::Memory),
        Err(OpenError::Io(error)) => return Err(fault_of(error)),
        Err(OpenError::Busy | OpenError::HotJournal) => return Err(StoreFault::Store),
    };
    let state = RandomState::new(rt).map_err(fault_of)?;
    let options = Options {
        cache_pages: PAGES,
        spill_pages: PAGES,
        ..Options::new(state.hash_one(&0u8))
    };
    if !files.may_be_used() {
        return Err(StoreFault::Store);
    }
    match Connection::open_files(rt.alloc(), files, options) {
        Ok(connection) => Ok(connection),
        Err((Error::SqliteFailure(ErrorCode::OutOfMemory), _)) => Err(StoreFault::Memory),
        Err(_) => Err(StoreFault::Store),
    }
}
