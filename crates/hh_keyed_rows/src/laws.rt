//! Laws about rows that represent tables. Each is the contract of a function that does nothing.

ghost use Rattle.hh_keyed_rows.specs.Laws.{AreColumnCodecs, AreKeyCodecs, AreValueCodecs, PutsReplace, RowsInAnyOrder, RowsReadBack};

use crate::columned::Columned;

/// The columns that are written for a single value are read as that value. Columns that are off its form or
/// range are not read. Two values have different columns.
pub fn column_codecs()
    ensures { AreColumnCodecs }
{}

/// The same for the columns of each key.
pub fn key_codecs()
    ensures { AreKeyCodecs }
{}

/// The same for the columns of each value.
pub fn value_codecs()
    ensures { AreValueCodecs }
{}

/// A row that is written for a key and its value is read as these, and no other row is.
pub fn rows_read_back<K: Columned, V: Columned>()
    ensures { RowsReadBack K.codec V.codec }
{}

/// If no two rows have the same key, rows represent the same table in any order.
pub fn rows_in_any_order<K: Columned, V: Columned>()
    ensures { RowsInAnyOrder K.codec V.codec }
{}

/// Writing a row replaces the one with its key. The same holds for rows that are written one after the
/// other.
pub fn puts_replace<K: Columned, V: Columned>()
    ensures { PutsReplace K.codec V.codec }
{}
