//! Rows that are selected by one key, or by one value, after the other.

ghost use Rattle.std.specs.Prelude.{◌≡◌, filter, IfOk};
ghost use Rattle.std.specs.List.{flat_map};
ghost use Rattle.sqlite.specs.Held.{state};
ghost use Rattle.hh_sqltables.specs.Forms.{entry_under, rows_under_keys};
ghost use Rattle.hh_sqltables.specs.Frames.{OfSettledOf, ReadsSettledOf};

use crate::one_table::{Found, Under};
use crate::table_calls::{select, select_under};
use hh_keyed_rows::{Columned, RowFault};
use sqlite::{Alter, Connection};
use std::alloc::Global;

/// The rows with these keys, key by key.
pub fn select_each<T: Found, S: Alter>(
    conn: &mut Connection<S>,
    alloc: Global,
    keys: &[T::Key],
) -> Result<Vec<(T::Key, T::Value)>, RowFault>
where
    T::Key: Copy,
    ensures frame { let new = state S.Store conn.new in
        ReadsSettledOf T.schema (state S.Store conn.old) new result }
    ensures value { let old = state S.Store conn.old in
        let new = state S.Store conn.new in
        OfSettledOf T.schema old new (IfOk result (λ found. found.items
        ≡ flat_map (entry_under T.form.order (rows_under_keys T.form old.now.trees)) keys.now)) }
{
    let mut found = Vec::new(alloc);
    'keys: for key in keys {
        if let Some(value) = select::<T, S>(conn, alloc, key)? {
            found.push((*key, value))?;
        }
    }
    Ok(found)
}

/// The rows whose keys are under these values, value by value.
pub fn select_under_each<T: Under<A>, A: Columned, S: Alter>(
    conn: &mut Connection<S>,
    alloc: Global,
    asked: &[A],
) -> Result<Vec<(T::Key, T::Value)>, RowFault>
    ensures frame { let new = state S.Store conn.new in
        ReadsSettledOf T.schema (state S.Store conn.old) new result }
    ensures value { let old = state S.Store conn.old in
        let new = state S.Store conn.new in
        OfSettledOf T.schema old new (IfOk result (λ found. found.items
        ≡ flat_map (λ a. filter (λ e. T.is_under a e.0) (rows_under_keys T.form old.now.trees))
        asked.now)) }
{
    let mut found = Vec::new(alloc);
    'asked: for one in asked {
        let mut more = select_under::<T, A, S>(conn, alloc, one)?;
        found.append(&mut more)?;
    }
    Ok(found)
}
