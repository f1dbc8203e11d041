//! Databases of offices of version 1 and of the present version, and what databases tell.

use crate::disks::{Caches, Failing, FusedDisk, failing_disks, new_disks, open};
use crate::requests::{ask_all, load_first, settings};
use hh_office::Office;
use hh_sqlstore::{Rising, SqlTables};
use hh_store::StoreFault;
use hh_time::london;
use sqlite::{Alter, Connection, FileStore, Files};
use sqlite_disk::Disk;
use std::alloc::{AllocError, Global};

/// The queries for the rows of each table in the order of their keys. No office has the last table.
const SELECTS: [&str; 18] = [
    "SELECT * FROM settings ORDER BY id",
    "SELECT * FROM parties ORDER BY party",
    "SELECT * FROM units ORDER BY unit",
    "SELECT * FROM meters ORDER BY unit, day, period",
    "SELECT * FROM prices ORDER BY day, period",
    "SELECT * FROM refs ORDER BY reference",
    "SELECT * FROM contracts ORDER BY reference, day, period",
    "SELECT * FROM reallocations ORDER BY unit, party, side, day, period",
    "SELECT * FROM files ORDER BY kind, name",
    "SELECT * FROM runs ORDER BY day, kind",
    "SELECT * FROM results ORDER BY day, kind, period, party, side",
    "SELECT * FROM credits ORDER BY day, kind, period, unit, party, side",
    "SELECT * FROM postings ORDER BY day, kind, party, side",
    "SELECT * FROM positions ORDER BY day, period, party, side",
    "SELECT * FROM touched ORDER BY day, period",
    "SELECT * FROM marks ORDER BY id",
    "SELECT * FROM leads ORDER BY unit, day_from",
    "SELECT * FROM others ORDER BY id",
];

/// Statements that make an office's database one of version 1.
const OLDER: [&str; 2] = ["DROP TABLE leads", "UPDATE settings SET version = 1"];

/// A database without tables.
pub fn opened(alloc: Global) -> Option<Connection<FileStore<FusedDisk>>> {
    open(alloc, new_disks(alloc), Caches::Large).ok()
}

/// What a new office is asked.
#[derive(Clone, Copy)]
enum Asked {
    /// To load parties and units.
    Registrations,
    /// All requests.
    Everything,
}

/// The disks of an office that was asked all requests. Its database is closed.
pub fn settled(alloc: Global) -> Option<Files<FusedDisk>> {
    made_over(alloc, new_disks(alloc), Asked::Everything)
}

/// The disks of an office that has parties and units. Its database is closed.
pub fn registered(alloc: Global) -> Option<Files<FusedDisk>> {
    made_over(alloc, new_disks(alloc), Asked::Registrations)
}

/// Makes an office over disks without bytes, and asks it. The disks are returned.
fn made_over<D: Disk + Drop>(alloc: Global, files: Files<D>, asked: Asked) -> Option<Files<D>> {
    match open(alloc, files, Caches::Large) {
        Ok(connection) => closed(made(alloc, connection, asked)?),
        Err(_) => None,
    }
}

/// Makes an office in a database without tables, and asks it. The connection is returned.
fn made<S: Rising + Drop>(
    alloc: Global,
    connection: Connection<S>,
    asked: Asked,
) -> Option<Connection<S>> {
    let tables = match SqlTables::create(alloc, connection, settings()?) {
        Ok(tables) => tables,
        Err(_) => return None,
    };
    let mut office = Office::new(alloc, tables, london());
    let is_asked = match asked {
        Asked::Registrations => load_first(alloc, &mut office, 2),
        Asked::Everything => ask_all(alloc, &mut office),
    };
    let connection = office.into_tables().into_connection();
    is_asked?;
    Some(connection)
}

/// Closes a database. Its disks, if it is closed.
pub fn closed<D: Disk + Drop>(connection: Connection<FileStore<D>>) -> Option<Files<D>> {
    connection.close_files().ok()
}

/// The database on a copy of disks.
pub fn reopened(
    alloc: Global,
    files: &Files<FusedDisk>,
) -> Option<Connection<FileStore<FusedDisk>>> {
    let files = failing_disks(alloc, files, Failing::Log, u64::MAX).ok()?;
    open(alloc, files, Caches::Large).ok()
}

/// Runs statements.
pub fn run_all<S: Rising>(conn: &mut Connection<S>, statements: &[&str]) -> Option<()> {
    for statement in statements {
        conn.execute(*statement, &[]).ok()?;
    }
    Some(())
}

/// Makes an office's database one of version 1. What it told before that.
pub fn made_older<S: Rising>(alloc: Global, conn: &mut Connection<S>) -> Option<String> {
    let newer = told_by(alloc, conn)?;
    run_all(conn, &OLDER)?;
    Some(newer)
}

/// What a database tells: which of these tables it has, and their rows.
pub fn told_by<S: Alter>(alloc: Global, conn: &mut Connection<S>) -> Option<String> {
    let mut text = String::new(alloc);
    for select in SELECTS {
        tell_rows(conn, select, &mut text).ok()?;
    }
    Some(text)
}

/// Appends the rows that a query selects, or that there are none because a table is missing.
fn tell_rows<S: Alter>(
    conn: &mut Connection<S>,
    select: &str,
    text: &mut String,
) -> Result<(), AllocError> {
    match conn.query_all(select, &[]) {
        Ok(rows) => write!(text, "{rows:?}\n"),
        Err(_) => write!(text, "no table\n"),
    }
}

/// Migrates a database. Whether that has this answer, and the database tells this then. The connection is
/// returned.
pub fn migrated<S: Rising>(
    alloc: Global,
    connection: Connection<S>,
    answer: Result<(), StoreFault>,
    told: &str,
) -> (bool, Connection<S>) {
    let (done, mut connection) = SqlTables::migrate(alloc, connection);
    let is_told = match told_by(alloc, &mut connection) {
        Some(text) => text.as_str() == told,
        None => false,
    };
    (done == answer && is_told, connection)
}
