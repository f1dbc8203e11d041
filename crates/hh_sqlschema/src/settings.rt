//! An office's database that is read.

ghost use Rattle.std.specs.Prelude.{◌≡◌, ◌≢◌, false, Err, IfOk, IsTrue, OnOk};
ghost use Rattle.sqlite.specs.Held.{state};
ghost use Rattle.hh_sqlrows.specs.row_fault.RowFault.TheVariants.{Store};
ghost use Rattle.hh_sqlrows.specs.OfficeSchema.{office};
ghost use Rattle.hh_sqlrows.specs.Reads.{IsHonest, StaysOpen};
ghost use Rattle.hh_sqlschema.specs.Adopted.{CrashAddsNothing, IsAdoptedFrom};
ghost use Rattle.hh_sqlrows.specs.Leaving.{LeavesDatabase};

use crate::rising::{Rising, has_office};
use hh_rows::Settings;
use hh_sqlrows::tables::SettingsTable;
use hh_sqlrows::{OneRow, RowFault, select};
use sqlite::Connection;
use std::alloc::Global;

/// The settings of the office in this database.
pub fn settings_of_office<S: Rising>(
    connection: &mut Connection<S>,
    alloc: Global,
) -> Result<Settings, RowFault>
    ensures adopted { let old = state S.Store connection.old in
        let new = state S.Store connection.new in
        IsTrue new.is_open → IfOk result (λ settings. IsAdoptedFrom settings old) }
    ensures left { let old = state S.Store connection.old in
        let new = state S.Store connection.new in
        LeavesDatabase old new }
    ensures crash { let old = state S.Store connection.old in
        let new = state S.Store connection.new in
        CrashAddsNothing old new }
    ensures autocommit { OnOk result (connection.new.in_transaction ≡ false) }
    ensures stays { StaysOpen (state S.Store connection.old) (state S.Store connection.new) result }
    ensures honest { IsHonest (state S.Store connection.old) (state S.Store connection.new) }
    ensures foreign { (state S.Store connection.old).now.schema ≢ office → result ≡ Err Store }
{
    if !has_office(connection) {
        return Err(RowFault::Store);
    }
    match select::<SettingsTable, S>(connection, alloc, &OneRow) {
        Ok(Some(settings)) => Ok(settings),
        Ok(None) => Err(RowFault::Store),
        Err(fault) => Err(fault),
    }
}
