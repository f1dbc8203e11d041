//! The columns of a row, one after the other.

ghost use Rattle.std.specs.Prelude.{◌≡◌, ◌++◌, ◌∷◌, ◌==◌, [], length, IfOk, IfErr, IfSome, IfNone, OnOk, OnErr, Some, None};
ghost use Rattle.sqlite_value.specs.Value.{owned};
ghost use Rattle.sqlite.specs.Values.{bound, bound_value};
ghost use Rattle.hh_keyed_rows.specs.Codecs.{blob_column, int_column, nat_column, text_column};
ghost use Rattle.hh_keyed_rows.specs.declared.row_fault.RowFault.TheVariants.{Store};

use crate::row_fault::RowFault;
use hh_rows::FileBody;
use sqlite::Row;
use sqlite::types::ValueRef;
use std::alloc::{AllocError, Global};
use std::marker::Model;

/// The columns of a row that are not read yet. Contracts see the list of their values.
#[derive(Drop)]
pub struct Columns<'a> {
    row: &'a Row,
    at: usize,
    alloc: Global,
}

impl<'a> Model for Columns<'a> {
    ghost use Rattle.std.specs.Prelude.{List, drop, length, ◌≤◌};
    ghost use Rattle.std.specs.Coded.{coded_list};
    ghost use Rattle.sqlite_value.specs.declared.value.Value.{Value as SqlValue};
    ghost use Rattle.sqlite_value.specs.contracts.value.Value.{the_row};

    ghost Value = { List SqlValue };

    ghost coded = { coded_list the_row.coded };

    ghost view = { λ c. drop c.at c.row.now };

    ghost invariant = { λ c. c.at ≤ length c.row.now };
}

impl<'a> Columns<'a> {
    /// All columns of a row.
    pub fn of(alloc: Global, row: &'a Row) -> Columns<'a>
        ensures { result ≡ row.now }
    {
        Columns { row, at: 0, alloc }
    }

    /// Reads the next column.
    pub fn next(&mut self) -> Option<ValueRef<'a>>
        ensures some { IfSome result (λ value. self.old ≡ owned value ∷ self.new) }
        ensures none { IfNone result (self.old ≡ []) }
    {
        if self.row.column_count() <= self.at {
            return None;
        }
        let value = self.row.get_ref(self.at).ok()?;
        self.at += 1;
        Some(value)
    }

    /// Whether all are read.
    pub fn is_empty(&self) -> bool
        ensures { result ≡ (length self.now == 0) }
    {
        self.at == self.row.column_count()
    }

    /// Reads a whole number from the next column.
    pub fn next_integer(&mut self) -> Result<i64, RowFault>
        ensures ok { IfOk result (λ number. int_column.read self.old ≡ Some (number, self.new)) }
        ensures err { IfErr result (λ fault. (fault ≡ Store) × (int_column.read self.old ≡ None)) }
    {
        match self.next() {
            Some(ValueRef::Int(number)) => Ok(number),
            _ => Err(RowFault::Store),
        }
    }

    /// Reads a whole number that is not negative from the next column.
    pub fn next_natural(&mut self) -> Result<u64, RowFault>
        ensures ok { IfOk result (λ number. nat_column.read self.old ≡ Some (number, self.new)) }
        ensures err { IfErr result (λ fault. (fault ≡ Store) × (nat_column.read self.old ≡ None)) }
    {
        match self.next() {
            Some(ValueRef::Int(number)) => u64::try_from(number).map_err(|_| RowFault::Store),
            _ => Err(RowFault::Store),
        }
    }

    /// Reads a text from the next column.
    pub fn next_text(&mut self) -> Result<&'a [u8], RowFault>
        ensures ok { IfOk result (λ text. text_column.read self.old ≡ Some (text.now, self.new)) }
        ensures err { IfErr result (λ fault. (fault ≡ Store) × (text_column.read self.old ≡ None)) }
    {
        match self.next() {
            Some(ValueRef::Text(text)) => Ok(text),
            _ => Err(RowFault::Store),
        }
    }

    /// Reads the bytes of a file from the next column, and copies them.
    pub fn next_body(&mut self) -> Result<FileBody, RowFault>
        ensures ok { IfOk result (λ body.
            blob_column.read self.old ≡ Some (body, self.new)) }
        ensures err { IfErr result (λ fault. fault ≡ Store → blob_column.read self.old ≡ None) }
    {
        match self.next() {
            Some(ValueRef::Blob(bytes)) => {
                let body = Vec::from_slice(self.alloc, bytes)?;
                Ok(FileBody::new(self.alloc, body)?)
            }
            _ => Err(RowFault::Store),
        }
    }
}

/// Appends a column. `Err` only if memory is refused. The columns are as they were then.
pub(crate) fn push_column<'a>(
    columns: &mut Vec<ValueRef<'a>>,
    value: ValueRef<'a>,
) -> Result<(), AllocError>
    ensures { OnOk result (bound columns.new.items
        ≡ bound columns.old.items ++ bound_value (owned value.entry) ∷ []) }
{
    columns.push(value)?;
    Ok(())
}
