//! What people are told about an office at a path, beside what a command answers. No contract says what it
//! is.

use crate::place::DatabaseHost;
use hh_names::FileName;
use hh_rows::{FileKind, LeadMinutes};
use hh_session::Office;
use hh_sqlstore::{Rising, SqlTables};
use hh_store::Tables;
use hh_time::{SettlementDate, london};
use sqlite::Connection;
use std::alloc::Global;

/// What is known about an accepted file that may have late rows.
#[derive(Clone, Copy, Debug, PartialEq, Eq)]
pub struct Lateness {
    /// How many of its rows were late when it was accepted.
    pub late: u32,
    /// How many minutes before its Settlement Period a row must have come.
    pub lead_minutes: LeadMinutes,
}

/// How many readings the units of a date lack in the office at a path. It is `None` if that can't be told.
pub fn missing_readings_at<S: Rising, D: DatabaseHost<Connection = Connection<S>>>(
    alloc: Global,
    host: &D,
    path: &str,
    date: SettlementDate,
) -> Option<u64> {
    if !host.exists(path).ok()? {
        return None;
    }
    let connection = host.open(path).ok()?;
    let (missing, connection) = missing_readings(alloc, connection, date);
    host.close(path, connection);
    missing
}

/// The same for the office in a database.
fn missing_readings<S: Rising>(
    alloc: Global,
    connection: Connection<S>,
    date: SettlementDate,
) -> (Option<u64>, Connection<S>) {
    match SqlTables::adopt(alloc, connection) {
        Ok(tables) => {
            let mut office = Office::new(alloc, tables, london());
            let missing = office.missing_readings(date).ok();
            (missing, office.into_tables().into_connection())
        }
        Err((_, connection)) => (None, connection),
    }
}

/// What is known about a file that the office at a path has accepted. It is `None` if that can't be told.
pub fn lateness_at<S: Rising, D: DatabaseHost<Connection = Connection<S>>>(
    alloc: Global,
    host: &D,
    path: &str,
    kind: FileKind,
    name: &FileName,
) -> Option<Lateness> {
    if !host.exists(path).ok()? {
        return None;
    }
    let connection = host.open(path).ok()?;
    match SqlTables::adopt(alloc, connection) {
        Ok(mut tables) => {
            let known = lateness_of(&mut tables, kind, name);
            host.close(path, tables.into_connection());
            known
        }
        Err((_, connection)) => {
            host.close(path, connection);
            None
        }
    }
}

/// The same for an office's tables.
fn lateness_of<T: Tables>(tables: &mut T, kind: FileKind, name: &FileName) -> Option<Lateness> {
    let file = tables.file(kind, name).ok()??;
    Some(Lateness {
        late: file.late(),
        lead_minutes: tables.settings().ok()?.lead_minutes,
    })
}
