//! The key of a table that has one row.

ghost use Rattle.std.specs.Prelude.{◌≡◌};
ghost use Rattle.hh_keyed_rows.specs.Keys.{one_row_column};

use crate::columned::Columned;
use crate::columns::{Columns, push_column};
use crate::row_fault::RowFault;
use sqlite::types::ValueRef;
use std::alloc::AllocError;

/// The key of the row in a table that has one row: 1 in the database.
#[derive(Clone, Copy, Debug, PartialEq, Eq, PartialOrd, Ord)]
pub struct OneRow;

impl Columned for OneRow {
    ghost codec = { one_row_column };

    fn to_columns<'a>(&'a self, columns: &mut Vec<ValueRef<'a>>) -> Result<(), AllocError> {
        push_column(columns, ValueRef::Int(1))
    }

    fn from_columns(columns: &mut Columns<'_>) -> Result<OneRow, RowFault> {
        if columns.next_natural()? == 1 {
            Ok(OneRow)
        } else {
            Err(RowFault::Store)
        }
    }
}
