//! Making a table, also in a database whose other tables have rows.

ghost use Rattle.std.specs.Prelude.{OnOk};
ghost use Rattle.sqlite_schema.specs.declared.schema.Schema.{Schema};
ghost use Rattle.sqlite_schema.specs.declared.schema.Table.{Table};
ghost use Rattle.sqlite.specs.Held.{state};
ghost use Rattle.hh_sqltables.specs.Forms.{IsOfficeOf};
ghost use Rattle.hh_sqltables.specs.Frames.{Inside, WritesInside};
ghost use Rattle.hh_sqltables.specs.Texts.{Defines, Makes};

use sqlite::{Alter, Error, Transaction};

/// Makes a table by its text, as the last one of the schema.
pub fn create_table<S: Alter>(tx: &mut Transaction<'_, S>, text: &str) -> Result<usize, Error>
    ensures frame { WritesInside S.Store tx.old tx.new result }
    ensures makes { let old = state S.Store tx.old.conn.now in
        let new = state S.Store tx.new.conn.now in
        (before after : Schema) (table : Table) → Defines before after table text.now
        → Inside old new (IsOfficeOf before old.now
        → OnOk result (Makes before after table old.now new.now)) }
{
    tx.execute(text, &[])
}
