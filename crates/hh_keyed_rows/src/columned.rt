//! Keys and values as columns.

ghost use Rattle.std.specs.Prelude.{◌≡◌, ◌++◌, true, IfOk, IfErr, OnOk, Some, None};
ghost use Rattle.sqlite.specs.Values.{bound};
ghost use Rattle.hh_keyed_rows.specs.Codecs.{Codec};
ghost use Rattle.hh_keyed_rows.specs.declared.row_fault.RowFault.TheVariants.{Store};

use crate::columns::Columns;
use crate::row_fault::RowFault;
use sqlite::types::ValueRef;
use std::alloc::AllocError;

/// A key or a value of an office's table, as columns of a row of a database.
pub trait Columned: Sized {
    /// The columns that represent it.
    ghost codec: { Codec Self };

    /// Appends its columns. `Err` only if memory is refused. The first of the columns may be appended then.
    fn to_columns<'a>(&'a self, columns: &mut Vec<ValueRef<'a>>) -> Result<(), AllocError>
        ensures written { OnOk result
            (bound columns.new.items ≡ bound columns.old.items ++ codec.write self.now) }
        ensures fits { OnOk result (codec.fits self.now ≡ true) };

    /// Reads it from the columns at the front. `Store` if they are off its form or range.
    fn from_columns(columns: &mut Columns<'_>) -> Result<Self, RowFault>
        ensures ok { IfOk result (λ value. codec.read columns.old ≡ Some (value, columns.new)) }
        ensures err { IfErr result (λ fault. fault ≡ Store → codec.read columns.old ≡ None) };
}
