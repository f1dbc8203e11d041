//! Rows as entries of a table: a key with its value.

ghost use Rattle.std.specs.Prelude.{◌≡◌, ◌++◌, is_none, map, true, IfOk, IfErr, Some, None};
ghost use Rattle.std.specs.List.{list_any};
ghost use Rattle.sqlite.specs.Values.{bound};
ghost use Rattle.hh_keyed_rows.specs.KeyedRows.{entry_in};
ghost use Rattle.hh_keyed_rows.specs.declared.row_fault.RowFault.TheVariants.{Store};

use crate::columned::Columned;
use crate::columns::Columns;
use crate::row_fault::RowFault;
use sqlite::Row;
use sqlite::types::ValueRef;
use std::alloc::{AllocError, Global};

/// The columns of a key and of its value, as the parameters of a statement. `Err` only if memory is
/// refused.
pub fn columns_of<'a, K: Columned, V: Columned>(
    alloc: Global,
    key: &'a K,
    value: &'a V,
) -> Result<Vec<ValueRef<'a>>, AllocError>
    ensures written { IfOk result (λ columns.
        bound columns.items ≡ K.codec.write key.now ++ V.codec.write value.now) }
    ensures key_fits { IfOk result (λ _. K.codec.fits key.now ≡ true) }
    ensures value_fits { IfOk result (λ _. V.codec.fits value.now ≡ true) }
{
    let mut columns = Vec::new(alloc);
    key.to_columns(&mut columns)?;
    value.to_columns(&mut columns)?;
    Ok(columns)
}

/// The key and the value of a row. `Store` if the row is off its form or range, so that no office wrote it.
pub fn read_entry<K: Columned + Drop, V: Columned + Drop>(
    alloc: Global,
    row: &Row,
) -> Result<(K, V), RowFault>
    ensures ok { IfOk result (λ entry. entry_in K.codec V.codec row.now ≡ Some entry) }
    ensures err { IfErr result (λ fault. fault ≡ Store → entry_in K.codec V.codec row.now ≡ None) }
{
    let mut columns = Columns::of(alloc, row);
    let key = K::from_columns(&mut columns)?;
    let value = V::from_columns(&mut columns)?;
    if columns.is_empty() {
        Ok((key, value))
    } else {
        Err(RowFault::Store)
    }
}

/// The keys and the values of rows, in their order. `Store` if one of the rows is off its form or range. No
/// row is skipped.
pub fn read_entries<K: Columned + Drop, V: Columned + Drop>(
    alloc: Global,
    rows: &[Row],
) -> Result<Vec<(K, V)>, RowFault>
    ensures ok { IfOk result (λ entries.
        map (entry_in K.codec V.codec) rows.now ≡ map Some entries.items) }
    ensures err { IfErr result (λ fault. fault ≡ Store
        → list_any (λ row. is_none (entry_in K.codec V.codec row)) rows.now ≡ true) }
{
    let mut entries = Vec::with_capacity(alloc, rows.len())?;
    for row in rows {
        entries.push(read_entry(alloc, row)?)?;
    }
    Ok(entries)
}
