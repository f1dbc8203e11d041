//! What rows are judged by, of any table: the rows under the names of these rows.

ghost use Rattle.std.specs.Prelude.{filter, IfOk};
ghost use Rattle.sqlite.specs.Held.{state};
ghost use Rattle.hh_sqlrows.specs.Forms.{entry_under, rows_under_keys};
ghost use Rattle.hh_sqlrows.specs.Reads.{OfSettledOf, ReadsSettledOf};
ghost use Rattle.hh_sqlparts.specs.steps.Named.{IsByNames};

use crate::named_names::{Name, names_in};
use hh_rows::Row;
use hh_sqlrows::{Columned, Found, RowFault, Under, select_each, select_under_each};
use hh_tables::ListTable;
use sqlite::{Alter, Connection};
use std::alloc::Global;

/// The rows of a table whose keys these rows name.
pub(crate) fn rows_named<T: Found, S: Alter>(
    conn: &mut Connection<S>,
    alloc: Global,
    rows: &[Row],
) -> Result<ListTable<T::Key, T::Value>, RowFault>
where
    T::Key: Name,
    T::Value: Copy,
    ensures frame { let new = state S.Store conn.new in
        ReadsSettledOf T.schema (state S.Store conn.old) new result }
    ensures value { let old = state S.Store conn.old in
        let new = state S.Store conn.new in
        OfSettledOf T.schema old new (IfOk result (IsByNames T.Key.cmp T.Key.cmp T.Key.name_of
        (entry_under T.form.order (rows_under_keys T.form old.now.trees)) rows.now)) }
{
    let names = names_in(alloc, rows)?;
    let found = select_each::<T, S>(conn, alloc, &names)?;
    Ok(ListTable::new(alloc).with_rows(alloc, found)?)
}

/// The rows of a table whose keys are under what these rows name.
pub(crate) fn rows_under_named<T: Under<N>, N: Name + Columned, S: Alter>(
    conn: &mut Connection<S>,
    alloc: Global,
    rows: &[Row],
) -> Result<ListTable<T::Key, T::Value>, RowFault>
where
    T::Key: Ord + Copy,
    T::Value: Copy,
    ensures frame { let new = state S.Store conn.new in
        ReadsSettledOf T.schema (state S.Store conn.old) new result }
    ensures value { let old = state S.Store conn.old in
        let new = state S.Store conn.new in
        OfSettledOf T.schema old new (IfOk result (IsByNames T.Key.cmp N.cmp N.name_of
        (λ n. filter (λ e. T.is_under n e.0) (rows_under_keys T.form old.now.trees)) rows.now)) }
{
    let names = names_in(alloc, rows)?;
    let found = select_under_each::<T, N, S>(conn, alloc, &names)?;
    Ok(ListTable::new(alloc).with_rows(alloc, found)?)
}
