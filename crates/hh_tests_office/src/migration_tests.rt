//! Tests of what no clause says of migrations: with ample memory an office's database of version 1 becomes
//! one of version 2, whatever it keeps beside its content, and every other database stays as it is.

use crate::versions::{
    made_older, migrated, opened, registered, reopened, run_all, settled, told_by,
};
use hh_keyed_rows::read_entries;
use hh_names::{Account, UnitId};
use hh_rows::{LeadKey, LeadTerm};
use hh_sqlstore::{Rising, SqlTables};
use hh_store::StoreFault;
use hh_time::SettlementDate;
use sqlite::Connection;
use std::alloc::Global;
use std::test::Fail;

/// The registration that an account has of a unit from the first day of 2024 on.
fn lead_of(unit: &[u8], lead: &[u8]) -> Option<(LeadKey, LeadTerm)> {
    let key = LeadKey {
        unit: UnitId::read(unit)?,
        from: SettlementDate::read(b"2024-01-01")?,
    };
    let term = LeadTerm {
        lead: Account::read(lead)?,
        to: SettlementDate::last(),
    };
    Some((key, term))
}

/// Whether a database has one registration for each unit, and its settings name version 2.
fn is_of_two<S: Rising>(alloc: Global, conn: &mut Connection<S>) -> Option<bool> {
    let rows = conn
        .query_all("SELECT * FROM leads ORDER BY unit, day_from", &[])
        .ok()?;
    let leads = read_entries::<LeadKey, LeadTerm>(alloc, rows.as_slice()).ok()?;
    let named = conn
        .query_all("SELECT id FROM settings WHERE version = 2", &[])
        .ok()?;
    let wanted = [lead_of(b"G1", b"GENCO-P")?, lead_of(b"S1", b"SUPCO-C")?];
    Some(leads.as_slice() == wanted.as_slice() && named.as_slice().len() == 1)
}

/// Whether an office is taken over from a database.
fn is_adopted<S: Rising + Drop>(alloc: Global, connection: Connection<S>) -> bool {
    match SqlTables::adopt(alloc, connection) {
        Ok(tables) => {
            drop(tables.into_connection());
            true
        }
        Err(_) => false,
    }
}

/// What an office keeps beside its content, as statements: as it is; no positions; positions although none
/// are said to be kept; nothing that says whether they are kept. And whether it is taken over.
const KEPT: [(&[&str], bool); 4] = [
    (&[], true),
    (
        &[
            "UPDATE marks SET positions = 0",
            "DELETE FROM positions",
            "DELETE FROM touched",
        ],
        true,
    ),
    (&["UPDATE marks SET positions = 0"], false),
    (&["DELETE FROM marks"], false),
];

/// Whether an office that keeps this beside its content is migrated from version 1, once and again, and
/// whether it is taken over then.
fn is_migrated<S: Rising + Drop>(
    alloc: Global,
    mut connection: Connection<S>,
    kept: &[&str],
) -> Option<(bool, bool)> {
    run_all(&mut connection, kept)?;
    let newer = made_older(alloc, &mut connection)?;
    let (once, connection) = migrated(alloc, connection, Ok(()), newer.as_str());
    let (again, mut connection) = migrated(alloc, connection, Ok(()), newer.as_str());
    let is_of_two = is_of_two(alloc, &mut connection)?;
    Some((once && again && is_of_two, is_adopted(alloc, connection)))
}

#[test]
fn offices_are_migrated(rt: HostRuntime) -> Result<(), Fail> {
    let files = settled(rt.alloc()).ok_or("office")?;
    for (kept, adopted) in KEPT {
        let connection = reopened(rt.alloc(), &files).ok_or("office")?;
        assert!(rt; is_migrated(rt.alloc(), connection, kept) == Some((true, adopted)));
    }
    Ok(())
}

/// Statements that make an office's database one that no version has: of 16 tables under a later version or
/// under version 2, of 17 tables under version 1, without settings, or with a table more.
const OTHERS: [&[&str]; 6] = [
    &["DROP TABLE leads", "UPDATE settings SET version = 7"],
    &["DROP TABLE leads"],
    &["UPDATE settings SET version = 1"],
    &["DROP TABLE leads", "DELETE FROM settings"],
    &["CREATE TABLE others (id INT NOT NULL, PRIMARY KEY (id)) STRICT"],
    &["DROP TABLE marks"],
];

/// Statements that make no office of a database without tables.
const FOREIGN: [&[&str]; 2] = [
    &[],
    &[
        "CREATE TABLE others (id INT NOT NULL, PRIMARY KEY (id)) STRICT",
        "INSERT INTO others (id) VALUES (1)",
    ],
];

/// Whether a database is refused after these statements, and left as it is.
fn is_refused<S: Rising + Drop>(
    alloc: Global,
    mut connection: Connection<S>,
    statements: &[&str],
) -> Option<bool> {
    run_all(&mut connection, statements)?;
    let told = told_by(alloc, &mut connection)?;
    let (refused, _connection) = migrated(alloc, connection, Err(StoreFault::Store), told.as_str());
    Some(refused)
}

#[test]
fn other_databases_are_refused(rt: HostRuntime) -> Result<(), Fail> {
    let files = registered(rt.alloc()).ok_or("office")?;
    for statements in OTHERS {
        let connection = reopened(rt.alloc(), &files).ok_or("office")?;
        assert!(rt; is_refused(rt.alloc(), connection, statements) == Some(true));
    }
    for statements in FOREIGN {
        let connection = opened(rt.alloc()).ok_or("database")?;
        assert!(rt; is_refused(rt.alloc(), connection, statements) == Some(true));
    }
    Ok(())
}
