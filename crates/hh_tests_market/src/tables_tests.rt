//! What no clause says: that with ample memory rows become a table if their keys rise, and are put behind
//! those of a table if theirs are all above.

use hh_tables::ListTable;
use std::alloc::{AllocError, Global};

/// A row with a key.
type KeyedRow = (u32, bool);

/// How many rows the table of these rows has, if they are a table.
fn length_of(alloc: Global, rows: &[KeyedRow]) -> Result<Option<usize>, AllocError> {
    let rows = Vec::from_slice(alloc, rows)?;
    Ok(ListTable::of_rows(rows).map(|table| table.len()))
}

/// How many rows a table has that had the keys 2 and 5, after these rows are put behind it, if they come
/// behind, and it is cut back to at most three rows.
fn length_behind(alloc: Global, rows: &[KeyedRow]) -> Result<Option<usize>, AllocError> {
    let first = Vec::from_slice(alloc, &[(5, true), (2, true)])?;
    let mut table = ListTable::new(alloc).with_rows(alloc, first)?;
    let rows = Vec::from_slice(alloc, rows)?;
    if !table.come_behind(&rows) {
        return Ok(None);
    }
    table.put_behind(rows)?;
    table.truncate(3);
    Ok(Some(table.len()))
}

/// Rows, and how many rows their table has.
const RISING: [(&[KeyedRow], Option<usize>); 4] = [
    (&[], Some(0)),
    (&[(2, true), (5, true), (9, true)], Some(3)),
    (&[(2, true), (9, true), (5, true)], None),
    (&[(2, true), (2, true)], None),
];

/// Rows, and how many rows the other table then has.
const BEHIND: [(&[KeyedRow], Option<usize>); 5] = [
    (&[], Some(2)),
    (&[(6, true)], Some(3)),
    (&[(6, true), (7, true)], Some(3)),
    (&[(5, true), (6, true)], None),
    (&[(7, true), (6, true)], None),
];

#[test]
fn rows_that_rise_are_a_table(rt: HostRuntime) {
    for (rows, length) in RISING {
        assert!(rt; length_of(rt.alloc(), rows) == Ok(length));
    }
}

#[test]
fn rows_are_put_behind_a_table(rt: HostRuntime) {
    for (rows, length) in BEHIND {
        assert!(rt; length_behind(rt.alloc(), rows) == Ok(length));
    }
}
