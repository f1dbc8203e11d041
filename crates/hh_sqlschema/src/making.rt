//! Making an office's database.

ghost use Rattle.std.specs.Prelude.{◌≡◌, ◌≢◌, false, Err, IsTrue, OnErr, OnOk};
ghost use Rattle.sqlite.specs.Held.{state};
ghost use Rattle.sqlite.specs.State.{HasCleanDisk};
ghost use Rattle.hh_sqlrows.specs.Making.{IsMadeUpTo};
ghost use Rattle.hh_sqlrows.specs.Reads.{Inside, WritesInside};
ghost use Rattle.hh_sqlrows.specs.row_fault.RowFault.TheVariants.{Store};
ghost use Rattle.hh_sqlrows.specs.OfficeSchema.{nothing};
ghost use Rattle.hh_sqlrows.specs.Holds.{IsNewOffice};
ghost use Rattle.hh_sqlschema.specs.Making.{MayMake};
ghost use Rattle.hh_sqlrows.specs.Leaving.{IsUndone};
ghost use Rattle.hh_sqlschema.specs.Made.{IsMadeIn};

use crate::schema::is_nothing;
use hh_rows::Settings;
use hh_sqlrows::tables::{Marks, SettingsTable};
use hh_sqlrows::{OneRow, RowFault, make_tables, replace};
use sqlite::{Alter, Connection, Transaction};
use std::alloc::Global;

/// Makes the tables of an office, writes its settings, and marks that positions are kept.
fn write_new_office<S: Alter>(
    tx: &mut Transaction<'_, S>,
    alloc: Global,
    settings: &Settings,
) -> Result<(), RowFault>
    ensures frame { WritesInside S.Store tx.old tx.new result }
    ensures writes { let old = state S.Store tx.old.conn.now in
        let new = state S.Store tx.new.conn.now in
        Inside old new (IsMadeUpTo 0 old.now → OnOk result (IsNewOffice settings.now new.now)) }
{
    make_tables(tx)?;
    replace::<SettingsTable, S>(tx, alloc, &OneRow, settings)?;
    replace::<Marks, S>(tx, alloc, &OneRow, &true)
}

/// Makes the database of an office with these settings in an empty database, in one transaction.
pub fn make_office<S: Alter>(
    connection: &mut Connection<S>,
    alloc: Global,
    settings: &Settings,
) -> Result<(), RowFault>
    ensures made { HasCleanDisk (state S.Store connection.new)
        → OnOk result (IsMadeIn settings.now (state S.Store connection.new)) }
    ensures autocommit { OnOk result (connection.new.in_transaction ≡ false) }
    ensures undone { let old = state S.Store connection.old in
        let new = state S.Store connection.new in
        OnErr result (IsUndone old new) }
    ensures foreign { (state S.Store connection.old).now.schema ≢ nothing → result ≡ Err Store }
    ensures crash { let old = state S.Store connection.old in
        let new = state S.Store connection.new in
        MayMake settings.now old new }
{
    if !connection.is_autocommit() || !is_nothing(connection.schema()) {
        return Err(RowFault::Store);
    }
    let mut tx = connection.transaction();
    write_new_office(&mut tx, alloc, settings)?;
    match tx.commit() {
        Ok(()) => Ok(()),
        Err(error) => Err(RowFault::from(error)),
    }
}
