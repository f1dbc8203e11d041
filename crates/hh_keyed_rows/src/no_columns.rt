//! The value of a table whose rows have only their keys.

ghost use Rattle.std.specs.Prelude.{◌≡◌};
ghost use Rattle.hh_keyed_rows.specs.Values.{no_columns};

use crate::columned::Columned;
use crate::columns::Columns;
use crate::row_fault::RowFault;
use sqlite::types::ValueRef;
use std::alloc::AllocError;

/// The value of a row that has only its key: no column.
#[derive(Clone, Copy, Debug, PartialEq, Eq, PartialOrd, Ord)]
pub struct NoColumns;

impl Columned for NoColumns {
    ghost codec = { no_columns };

    fn to_columns<'a>(&'a self, _columns: &mut Vec<ValueRef<'a>>) -> Result<(), AllocError> {
        Ok(())
    }

    fn from_columns(_columns: &mut Columns<'_>) -> Result<NoColumns, RowFault> {
        Ok(NoColumns)
    }
}
