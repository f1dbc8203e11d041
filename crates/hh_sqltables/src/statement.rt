//! Statements on one table: they write rows, or select them.

ghost use Rattle.std.specs.Prelude.{◌≡◌, ◌++◌, [], false, ℕ, List, option_map, slice_get, IfOk, IsTrue, OnOk, Ok, true, ⊤};
ghost use Rattle.std.specs.List.{AllByRecursion, flat_map};
ghost use Rattle.sqlite.specs.Held.{state};
ghost use Rattle.sqlite.specs.State.{ExecutesInside};
ghost use Rattle.sqlite.specs.Values.{bound};
ghost use Rattle.hh_keyed_rows.specs.KeyedRows.{columns_of as columns_by};
ghost use Rattle.hh_keyed_rows.specs.Laws.{Fits};
ghost use Rattle.hh_sqltables.specs.steps.Answers.{IsFirst, IsPlainOf, IsRead};
ghost use Rattle.hh_sqltables.specs.steps.Trying.{ExecutesOrLeaves};
ghost use Rattle.hh_sqltables.specs.Frames.{Inside, Reads, WritesInside};

use hh_keyed_rows::{Columned, RowFault, columns_of, read_entries};
use sqlite::types::ValueRef;
use sqlite::{Alter, Connection, Error, ErrorCode, Transaction};
use std::alloc::{AllocError, Global};

/// How many rows one statement writes, of those that are written a group at a time.
pub const GROUP: usize = 8;

/// Executes a statement whose parameters are the columns of a key and of its value.
pub(crate) fn write_entry<S: Alter, K: Columned, V: Columned>(
    tx: &mut Transaction<'_, S>,
    alloc: Global,
    text: &str,
    key: &K,
    value: &V,
) -> Result<(), RowFault>
    ensures frame { WritesInside S.Store tx.old tx.new result }
    ensures fits { OnOk result ((K.codec.fits key.now ≡ true) × (V.codec.fits value.now ≡ true)) }
    ensures writes { let old = state S.Store tx.old.conn.now in
        let new = state S.Store tx.new.conn.now in
        let columns = K.codec.write key.now ++ V.codec.write value.now in
        Inside old new (OnOk result ((count : ℕ)
        × ExecutesInside 0 text.now columns old new (Ok count))) }
{
    let columns = columns_of(alloc, key, value)?;
    match tx.execute(text, columns.as_slice()) {
        Ok(_) => Ok(()),
        Err(error) => Err(RowFault::from(error)),
    }
}

/// Executes a text with the columns of keys and of their values as parameters, entry by entry. `false`
/// where a constraint of the database refuses it. Nothing is written then.
pub(crate) fn try_entries<S: Alter, K: Columned, V: Columned>(
    tx: &mut Transaction<'_, S>,
    alloc: Global,
    text: &str,
    entries: &[(K, V)],
) -> Result<bool, RowFault>
    ensures frame { WritesInside S.Store tx.old tx.new result }
    ensures fit { OnOk result (AllByRecursion (Fits K.codec V.codec) entries.now) }
    ensures writes { let old = state S.Store tx.old.conn.now in
        let new = state S.Store tx.new.conn.now in
        let columns = flat_map (columns_by K.codec V.codec) entries.now in
        Inside old new (IfOk result (ExecutesOrLeaves text.now columns old new)) }
{
    let columns = columns_of_all(alloc, entries)?;
    match tx.execute(text, columns.as_slice()) {
        Ok(_) => Ok(true),
        Err(Error::SqliteFailure(ErrorCode::ConstraintViolation(_))) => Ok(false),
        Err(error) => Err(RowFault::from(error)),
    }
}

/// The columns of keys and of their values, entry by entry. `Err` only if memory is refused.
fn columns_of_all<'a, K: Columned, V: Columned>(
    alloc: Global,
    entries: &'a [(K, V)],
) -> Result<Vec<ValueRef<'a>>, AllocError>
    ensures written { IfOk result (λ columns.
        bound columns.items ≡ flat_map (columns_by K.codec V.codec) entries.now) }
    ensures fit { OnOk result (AllByRecursion (Fits K.codec V.codec) entries.now) }
{
    let mut columns = Vec::new(alloc);
    'entries: for entry in entries {
        entry.0.to_columns(&mut columns)?;
        entry.1.to_columns(&mut columns)?;
    }
    Ok(columns)
}

/// Executes a statement whose parameters are the columns of one value.
pub(crate) fn execute_by<S: Alter, A: Columned>(
    tx: &mut Transaction<'_, S>,
    alloc: Global,
    text: &str,
    asked: &A,
) -> Result<(), RowFault>
    ensures frame { WritesInside S.Store tx.old tx.new result }
    ensures executes { let old = state S.Store tx.old.conn.now in
        let new = state S.Store tx.new.conn.now in
        Inside old new (OnOk result ((count : ℕ)
        × ExecutesInside 0 text.now (A.codec.write asked.now) old new (Ok count))) }
{
    let mut params = Vec::new(alloc);
    asked.to_columns(&mut params)?;
    match tx.execute(text, params.as_slice()) {
        Ok(_) => Ok(()),
        Err(error) => Err(RowFault::from(error)),
    }
}

/// The keys and the values that a query selects by parameters.
pub(crate) fn select_entries<S: Alter, K: Columned + Drop, V: Columned + Drop>(
    conn: &mut Connection<S>,
    alloc: Global,
    text: &str,
    params: &[ValueRef<'_>],
) -> Result<Vec<(K, V)>, RowFault>
    ensures frame { let old = state S.Store conn.old in
        Reads ⊤ (IsPlainOf old text.now) old (state S.Store conn.new) result }
    ensures read { let old = state S.Store conn.old in
        let new = state S.Store conn.new in
        IsTrue new.is_open → IfOk result (λ found.
        IsRead K.codec V.codec text.now (bound params.now) old new found.items) }
{
    match conn.query_all(text, params) {
        Ok(rows) => read_entries(alloc, rows.as_slice()),
        Err(error) => Err(RowFault::from(error)),
    }
}

/// The keys and the values that a query selects by the columns of one value.
pub(crate) fn select_by<S: Alter, A: Columned, K: Columned + Drop, V: Columned + Drop>(
    conn: &mut Connection<S>,
    alloc: Global,
    text: &str,
    asked: &A,
) -> Result<Vec<(K, V)>, RowFault>
    ensures frame { let old = state S.Store conn.old in
        Reads ⊤ (IsPlainOf old text.now) old (state S.Store conn.new) result }
    ensures read { let old = state S.Store conn.old in
        let new = state S.Store conn.new in
        IsTrue new.is_open → IfOk result (λ found.
        IsRead K.codec V.codec text.now (A.codec.write asked.now) old new found.items) }
{
    let mut params = Vec::new(alloc);
    asked.to_columns(&mut params)?;
    select_entries(conn, alloc, text, params.as_slice())
}

/// The value of the first row that a query selects by its key.
pub(crate) fn select_first<S: Alter, K: Columned + Drop, V: Columned + Drop>(
    conn: &mut Connection<S>,
    alloc: Global,
    text: &str,
    key: &K,
) -> Result<Option<V>, RowFault>
    ensures frame { let old = state S.Store conn.old in
        Reads ⊤ (IsPlainOf old text.now) old (state S.Store conn.new) result }
    ensures found { let old = state S.Store conn.old in
        let new = state S.Store conn.new in
        IsTrue new.is_open → IfOk result (λ value.
        IsFirst K.codec V.codec text.now (K.codec.write key.now) old new value) }
{
    match select_by(conn, alloc, text, key) {
        Ok(found) => Ok(value_of_first::<K, V>(found)),
        Err(fault) => Err(fault),
    }
}

/// The value of the first entry.
fn value_of_first<K: Drop, V: Drop>(found: Vec<(K, V)>) -> Option<V>
    ensures { result ≡ option_map (λ e. e.1) (slice_get found.items 0) }
{
    match found.into_iter().next() {
        Some((_, value)) => Some(value),
        None => None,
    }
}
