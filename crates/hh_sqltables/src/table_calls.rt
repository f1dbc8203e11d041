//! What is done with a table of an office, for any of them.

ghost use Rattle.std.specs.Prelude.{◌≡◌, IfOk, filter};
ghost use Rattle.std.specs.FinMap.{find};
ghost use Rattle.sqlite.specs.Held.{state};
ghost use Rattle.hh_devices.specs.DeviceChanges.{change};
ghost use Rattle.hh_sqltables.specs.Forms.{PutsAllIn, PutsAllOrLeavesIn, PutsIn, RemovesIn, rows_under_keys};
ghost use Rattle.hh_sqltables.specs.Frames.{MakesByAnswerIn, MakesIn, OfOfficeOf, ReadsOfficeOf, WritesInside};
ghost use Rattle.hh_sqltables.specs.Giving.{GivesEach, GivesToNew};

use crate::giving::{give_by, give_entries};
use crate::one_table::{Found, Grouped, Listed, OfficeTable, Removed, Under};
use crate::statement::{
    GROUP, execute_by, select_by, select_entries, select_first, try_entries, write_entry,
};
use crate::taker::RowTaker;
use hh_devices::Sink;
use hh_keyed_rows::{Columned, OutputFault, RowFault};
use sqlite::{Alter, Connection, Transaction};
use std::alloc::Global;

/// Writes a row, and replaces the one with its key if there is one.
pub fn replace<T: OfficeTable, S: Alter>(
    tx: &mut Transaction<'_, S>,
    alloc: Global,
    key: &T::Key,
    value: &T::Value,
) -> Result<(), RowFault>
    ensures frame { WritesInside S.Store tx.old tx.new result }
    ensures puts { MakesIn T.schema S.Store tx.old tx.new result
        (PutsIn T.schema T.form key.now value.now) }
{
    write_entry(tx, alloc, T::put(), key, value)
}

/// Writes rows as `replace` does, one after the other.
pub fn replace_all<T: OfficeTable, S: Alter>(
    tx: &mut Transaction<'_, S>,
    alloc: Global,
    rows: &[(T::Key, T::Value)],
) -> Result<(), RowFault>
    ensures frame { WritesInside S.Store tx.old tx.new result }
    ensures puts { MakesIn T.schema S.Store tx.old tx.new result
        (PutsAllIn T.schema T.form rows.now) }
{
    'rows: for row in rows {
        replace::<T, S>(tx, alloc, &row.0, &row.1)?;
    }
    Ok(())
}

/// Writes a group of rows by one statement, if their keys are new. `false` where one is not, one occurs
/// twice, or these are more or fewer than a group. Nothing is written then.
pub fn insert_group<T: Grouped, S: Alter>(
    tx: &mut Transaction<'_, S>,
    alloc: Global,
    rows: &[(T::Key, T::Value)],
) -> Result<bool, RowFault>
    ensures frame { WritesInside S.Store tx.old tx.new result }
    ensures puts { MakesByAnswerIn T.schema S.Store tx.old tx.new result
        (PutsAllOrLeavesIn T.schema T.form rows.now) }
{
    if rows.len() == GROUP {
        try_entries(tx, alloc, T::group(), rows)
    } else {
        Ok(false)
    }
}

/// Writes rows: whole groups by one statement each, if their keys are new, and the others one after the
/// other.
pub fn insert_all<T: Grouped, S: Alter>(
    tx: &mut Transaction<'_, S>,
    alloc: Global,
    rows: &[(T::Key, T::Value)],
) -> Result<(), RowFault>
    ensures frame { WritesInside S.Store tx.old tx.new result }
    ensures puts { MakesIn T.schema S.Store tx.old tx.new result
        (PutsAllIn T.schema T.form rows.now) }
{
    'groups: for group in rows.chunks(GROUP) {
        insert_or_replace::<T, S>(tx, alloc, group)?;
    }
    Ok(())
}

/// Writes rows: a group by one statement, if their keys are new, and others one after the other.
fn insert_or_replace<T: Grouped, S: Alter>(
    tx: &mut Transaction<'_, S>,
    alloc: Global,
    rows: &[(T::Key, T::Value)],
) -> Result<(), RowFault>
    ensures frame { WritesInside S.Store tx.old tx.new result }
    ensures puts { MakesIn T.schema S.Store tx.old tx.new result
        (PutsAllIn T.schema T.form rows.now) }
{
    if insert_group::<T, S>(tx, alloc, rows)? {
        Ok(())
    } else {
        replace_all::<T, S>(tx, alloc, rows)
    }
}

/// Removes the rows whose keys are under a value.
pub fn remove_under<T: Removed<A>, A: Columned, S: Alter>(
    tx: &mut Transaction<'_, S>,
    alloc: Global,
    asked: &A,
) -> Result<(), RowFault>
    ensures frame { WritesInside S.Store tx.old tx.new result }
    ensures removes { MakesIn T.schema S.Store tx.old tx.new result
        (RemovesIn T.schema T.form (T.is_removed asked.now)) }
{
    execute_by(tx, alloc, T::removal(), asked)
}

/// The value of a key.
pub fn select<T: Found, S: Alter>(
    conn: &mut Connection<S>,
    alloc: Global,
    key: &T::Key,
) -> Result<Option<T::Value>, RowFault>
    ensures frame { let new = state S.Store conn.new in
        ReadsOfficeOf T.schema (state S.Store conn.old) new result }
    ensures value { let old = state S.Store conn.old in
        let new = state S.Store conn.new in
        OfOfficeOf T.schema old new (IfOk result (λ found.
        found ≡ find T.form.order key.now (rows_under_keys T.form old.now.trees))) }
{
    select_first(conn, alloc, T::one(), key)
}

/// All rows, in the order of their keys.
pub fn select_all<T: Listed, S: Alter>(
    conn: &mut Connection<S>,
    alloc: Global,
) -> Result<Vec<(T::Key, T::Value)>, RowFault>
    ensures frame { let new = state S.Store conn.new in
        ReadsOfficeOf T.schema (state S.Store conn.old) new result }
    ensures value { let old = state S.Store conn.old in
        let new = state S.Store conn.new in
        OfOfficeOf T.schema old new (IfOk result (λ found.
        found.items ≡ rows_under_keys T.form old.now.trees)) }
{
    select_entries(conn, alloc, T::all(), &[])
}

/// The rows whose keys are under a value, in the order of their keys.
pub fn select_under<T: Under<A>, A: Columned, S: Alter>(
    conn: &mut Connection<S>,
    alloc: Global,
    asked: &A,
) -> Result<Vec<(T::Key, T::Value)>, RowFault>
    ensures frame { let new = state S.Store conn.new in
        ReadsOfficeOf T.schema (state S.Store conn.old) new result }
    ensures value { let old = state S.Store conn.old in
        let new = state S.Store conn.new in
        OfOfficeOf T.schema old new (IfOk result (λ found.
        found.items ≡ filter (λ e. T.is_under asked.now e.0)
        (rows_under_keys T.form old.now.trees))) }
{
    select_by(conn, alloc, T::under(), asked)
}

/// Gives a taker all rows, in the order of their keys, one after the other.
pub fn give_all<T: Listed, S: Alter, R: RowTaker<T::Key, T::Value>, O: Sink>(
    conn: &mut Connection<S>,
    alloc: Global,
    taker: &mut R,
    out: &mut O,
) -> Result<(), OutputFault>
    ensures frame { let new = state S.Store conn.new in
        ReadsOfficeOf T.schema (state S.Store conn.old) new result }
    ensures gives { let old = state S.Store conn.old in
        let new = state S.Store conn.new in
        GivesToNew (change O.taken O.failures) R.has R.stopped out.old out.new taker.old taker.new
        (λ has stopped. GivesEach has stopped (OfOfficeOf T.schema old new)
        (rows_under_keys T.form old.now.trees) result) }
{
    give_entries(conn, alloc, T::all(), &[], taker, out)
}

/// Gives a taker the rows whose keys are under a value, in the order of their keys, one after the other.
pub fn give_under<T: Under<A>, A: Columned, S: Alter, R: RowTaker<T::Key, T::Value>, O: Sink>(
    conn: &mut Connection<S>,
    alloc: Global,
    asked: &A,
    taker: &mut R,
    out: &mut O,
) -> Result<(), OutputFault>
    ensures frame { let new = state S.Store conn.new in
        ReadsOfficeOf T.schema (state S.Store conn.old) new result }
    ensures gives { let old = state S.Store conn.old in
        let new = state S.Store conn.new in
        GivesToNew (change O.taken O.failures) R.has R.stopped out.old out.new taker.old taker.new
        (λ has stopped. GivesEach has stopped (OfOfficeOf T.schema old new)
        (filter (λ e. T.is_under asked.now e.0) (rows_under_keys T.form old.now.trees)) result) }
{
    give_by(conn, alloc, T::under(), asked, taker, out)
}
