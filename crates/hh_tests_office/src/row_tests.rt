//! Rows that no table of an office can hold, since its columns have types and are never NULL: values of
//! other types, and rows with fewer or more columns. They are read as none.

use crate::versions::opened;
use hh_keyed_rows::{Columned, NoColumns, RowFault, read_entry};
use hh_num::Kwh;
use hh_rows::{ContractKey, SettlementPeriod};
use hh_rules::{Position, PositionKey};
use hh_states::FileKey;
use hh_store::KeptFile;
use sqlite::{Alter, Connection};
use std::alloc::Global;
use std::test::Fail;

/// What the first row that a statement selects is read as.
fn read<K: Columned + Drop, V: Columned + Drop, S: Alter>(
    conn: &mut Connection<S>,
    alloc: Global,
    sql: &str,
) -> Option<Result<(K, V), RowFault>> {
    let rows = conn.query_all(sql, &[]).ok()?;
    Some(read_entry(alloc, rows.as_slice().first()?))
}

/// Whether a row is read.
fn is_read<K: Columned + Drop, V: Columned + Drop, S: Alter>(
    conn: &mut Connection<S>,
    alloc: Global,
    row: &str,
) -> bool {
    matches!(read::<K, V, S>(conn, alloc, row), Some(Ok(_)))
}

/// Whether each row is refused as one that no office wrote.
fn are_refused<K: Columned + Drop, V: Columned + Drop, S: Alter>(
    conn: &mut Connection<S>,
    alloc: Global,
    rows: &[&str],
) -> bool {
    for row in rows {
        if !is_refused::<K, V, S>(conn, alloc, *row) {
            return false;
        }
    }
    true
}

/// Whether a row is refused as one that no office wrote.
fn is_refused<K: Columned + Drop, V: Columned + Drop, S: Alter>(
    conn: &mut Connection<S>,
    alloc: Global,
    row: &str,
) -> bool {
    matches!(
        read::<K, V, S>(conn, alloc, row),
        Some(Err(RowFault::Store))
    )
}

const VOLUMES: [&str; 6] = [
    "SELECT x'63', 19905, 3, 0",
    "SELECT 'c-1', NULL, 3, 0",
    "SELECT 'c-1', '19905', 3, 0",
    "SELECT 'c-1', 19905, 3, 1.5",
    "SELECT 'c-1', 19905, 3",
    "SELECT 'c-1', 19905, 3, 0, 0",
];

const POSITIONS: [&str; 3] = [
    "SELECT 19905, 3, 'GENCO', 0, 5, NULL",
    "SELECT 19905, 3, 'GENCO', 0, 5",
    "SELECT 19905, 3, 'GENCO', 0, 5, 0, 0",
];

const PERIODS: [&str; 2] = ["SELECT 19905", "SELECT 19905, 3, 0"];

const FILES: [&str; 1] = ["SELECT 'meters', 'f6.csv', '00', 2, 1"];

/// Whether rows off their form are refused.
fn see_rows<S: Alter>(conn: &mut Connection<S>, alloc: Global) -> bool {
    is_read::<ContractKey, Kwh, S>(conn, alloc, "SELECT 'c-1', 19905, 3, -1500")
        && are_refused::<ContractKey, Kwh, S>(conn, alloc, &VOLUMES)
        && are_refused::<PositionKey, Position, S>(conn, alloc, &POSITIONS)
        && are_refused::<SettlementPeriod, NoColumns, S>(conn, alloc, &PERIODS)
        && are_refused::<FileKey, KeptFile, S>(conn, alloc, &FILES)
}

#[test]
fn rows_off_their_form_are_refused(rt: HostRuntime) -> Result<(), Fail> {
    let mut conn = opened(rt.alloc()).ok_or("database")?;
    assert!(rt; see_rows(&mut conn, rt.alloc()));
    Ok(())
}
