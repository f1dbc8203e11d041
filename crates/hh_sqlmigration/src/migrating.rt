//! From version 1 to version 2, in one transaction.

ghost use Rattle.std.specs.Prelude.{◌≡◌, ◌≢◌, false, Err, IfOk, IsTrue, OnErr, OnOk};
ghost use Rattle.sqlite.specs.Held.{state};
ghost use Rattle.sqlite.specs.State.{HasCleanDisk, Survives};
ghost use Rattle.hh_sqltables.specs.Forms.{IsOfficeOf};
ghost use Rattle.hh_sqltables.specs.Frames.{MakesIn};
ghost use Rattle.hh_sqlrows.specs.Holds.{HasSettings};
ghost use Rattle.hh_sqlrows.specs.Leaving.{IsUndone, LeavesDatabase, MayStand};
ghost use Rattle.hh_sqlrows.specs.OfficeSchema.{office, office_of_one};
ghost use Rattle.hh_sqlrows.specs.Reads.{IsHonest, StaysOpen, WritesInside};
ghost use Rattle.hh_sqlrows.specs.row_fault.RowFault.TheVariants.{Store};
ghost use Rattle.hh_sqlrows.specs.steps.Changed.{IsChangedIn};
ghost use Rattle.hh_sqlschema.specs.Adopted.{CrashAddsNothing};
ghost use Rattle.hh_sqlmigration.specs.Versions.{IsMigrated, MayMigrate};
ghost use Rattle.hh_sqlmigration.specs.steps.ToTwo.{BecomesTwo, IsTakenTo, MayBecomeTwo};
ghost use Rattle.hh_sqlmigration.specs.steps.Writes.{WritesTwo};

use crate::first_leads::leads_of_units;
use crate::tables::{LEADS, SettingsOfOne, SettingsOfTwo, UnitsOfOne};
use hh_keyed_rows::{OneRow, RowFault};
use hh_rows::{LeadKey, LeadTerm, Settings};
use hh_sqlrows::tables::Leads;
use hh_sqlschema::{Rising, has_office_of_one, settings_of_office};
use hh_sqltables::{create_table, replace, replace_all, select, select_all};
use sqlite::{Alter, Connection, Transaction};
use std::alloc::Global;

/// Takes a database of version 1 to version 2, in one transaction. One of version 2 stays as it is.
///
/// # Errors
///
/// `Memory`: memory was refused. `Store`: a transaction is under way; or the database has tables other
/// than those of version 1 or 2; or its settings name another version, or are off their grammar; or it
/// refuses for another reason. The database is as it was.
pub fn migrate<S: Rising>(connection: &mut Connection<S>, alloc: Global) -> Result<(), RowFault>
    ensures migrated { let old = state S.Store connection.old in
        let new = state S.Store connection.new in
        HasCleanDisk new → OnOk result (IsMigrated old new) }
    ensures undone { let old = state S.Store connection.old in
        let new = state S.Store connection.new in
        HasCleanDisk new → OnErr result (LeavesDatabase old new) }
    ensures crash { let old = state S.Store connection.old in
        MayMigrate old (state S.Store connection.new) }
    ensures honest { IsHonest (state S.Store connection.old) (state S.Store connection.new) }
    ensures autocommit { OnOk result (connection.new.in_transaction ≡ false) }
    ensures foreign { let schema = (state S.Store connection.old).now.schema in
        schema ≢ office_of_one → schema ≢ office → result ≡ Err Store }
{
    if has_office_of_one(connection) {
        step_to_two(connection, alloc)
    } else {
        settings_of_office(connection, alloc)?;
        Ok(())
    }
}

/// Takes a database with the tables of version 1 to version 2.
fn step_to_two<S: Alter>(connection: &mut Connection<S>, alloc: Global) -> Result<(), RowFault>
    requires autocommit { connection.old.in_transaction ≡ false }
    requires settled { let old = state S.Store connection.old in
        IsTrue old.is_open → old.now ≡ old.committed }
    requires office { let old = state S.Store connection.old in
        IsTrue old.is_open → IsOfficeOf office_of_one old.now }
    ensures taken { let old = state S.Store connection.old in
        let new = state S.Store connection.new in
        HasCleanDisk new → OnOk result (IsTakenTo BecomesTwo old new) }
    ensures undone { let old = state S.Store connection.old in
        let new = state S.Store connection.new in
        HasCleanDisk new → OnErr result (LeavesDatabase old new) }
    ensures crash { MayBecomeTwo (state S.Store connection.old) (state S.Store connection.new) }
    ensures honest { IsHonest (state S.Store connection.old) (state S.Store connection.new) }
    ensures autocommit { connection.new.in_transaction ≡ false }
{
    let settings = settings_of_one(connection, alloc)?;
    add_leads(connection, alloc, &settings)
}

/// The settings of a database with the tables of version 1.
fn settings_of_one<S: Alter>(
    connection: &mut Connection<S>,
    alloc: Global,
) -> Result<Settings, RowFault>
    requires autocommit { connection.old.in_transaction ≡ false }
    requires office { let old = state S.Store connection.old in
        IsTrue old.is_open → IsOfficeOf office_of_one old.now }
    requires settled { let old = state S.Store connection.old in
        IsTrue old.is_open → old.now ≡ old.committed }
    ensures read { let old = state S.Store connection.old in
        let new = state S.Store connection.new in
        IsTrue new.is_open → IfOk result (λ settings. HasSettings 1 settings old.now.trees) }
    ensures left { LeavesDatabase (state S.Store connection.old) (state S.Store connection.new) }
    ensures crash { CrashAddsNothing (state S.Store connection.old) (state S.Store connection.new) }
    ensures autocommit { connection.new.in_transaction ≡ false }
    ensures stays { StaysOpen (state S.Store connection.old) (state S.Store connection.new) result }
    ensures honest { IsHonest (state S.Store connection.old) (state S.Store connection.new) }
{
    match select::<SettingsOfOne, S>(connection, alloc, &OneRow) {
        Ok(Some(settings)) => Ok(settings.settings()),
        Ok(None) => Err(RowFault::Store),
        Err(fault) => Err(fault),
    }
}

/// Gives each unit its registration, in a database of version 1 with these settings.
fn add_leads<S: Alter>(
    connection: &mut Connection<S>,
    alloc: Global,
    settings: &Settings,
) -> Result<(), RowFault>
    requires autocommit { connection.old.in_transaction ≡ false }
    requires settled { let old = state S.Store connection.old in
        IsTrue old.is_open → old.now ≡ old.committed }
    requires office { let old = state S.Store connection.old in
        IsTrue old.is_open → IsOfficeOf office_of_one old.now }
    requires settings { let old = state S.Store connection.old in
        IsTrue old.is_open → HasSettings 1 settings.now old.now.trees }
    ensures taken { let old = state S.Store connection.old in
        let new = state S.Store connection.new in
        HasCleanDisk new → OnOk result (IsTakenTo BecomesTwo old new) }
    ensures undone { let old = state S.Store connection.old in
        let new = state S.Store connection.new in
        HasCleanDisk new → OnErr result (LeavesDatabase old new) }
    ensures crash { MayBecomeTwo (state S.Store connection.old) (state S.Store connection.new) }
    ensures honest { IsHonest (state S.Store connection.old) (state S.Store connection.new) }
    ensures autocommit { connection.new.in_transaction ≡ false }
{
    let units = select_all::<UnitsOfOne, S>(connection, alloc)?;
    let leads = leads_of_units(alloc, &units)?;
    commit_two(connection, alloc, &leads, settings)
}

/// Makes and writes the table of leads, and names version 2, whole or not at all.
fn commit_two<S: Alter>(
    connection: &mut Connection<S>,
    alloc: Global,
    leads: &[(LeadKey, LeadTerm)],
    settings: &Settings,
) -> Result<(), RowFault>
    requires autocommit { connection.old.in_transaction ≡ false }
    requires settled { let old = state S.Store connection.old in
        IsTrue old.is_open → old.now ≡ old.committed }
    ensures made { let old = state S.Store connection.old in
        let new = state S.Store connection.new in
        HasCleanDisk new
        → OnOk result (IsChangedIn office_of_one (WritesTwo leads.now settings.now) old new) }
    ensures undone { let old = state S.Store connection.old in
        OnErr result (IsUndone old (state S.Store connection.new)) }
    ensures crash { let old = state S.Store connection.old in
        let new = state S.Store connection.new in
        IsOfficeOf office_of_one old.now
        → Survives old new (MayStand (WritesTwo leads.now settings.now old.now)) }
    ensures honest { IsHonest (state S.Store connection.old) (state S.Store connection.new) }
    ensures autocommit { connection.new.in_transaction ≡ false }
{
    let mut tx = connection.transaction();
    write_two(&mut tx, alloc, leads, settings)?;
    match tx.commit() {
        Ok(()) => Ok(()),
        Err(error) => Err(RowFault::from(error)),
    }
}

/// Makes the table of leads, writes these leads, and has the settings name version 2.
fn write_two<S: Alter>(
    tx: &mut Transaction<'_, S>,
    alloc: Global,
    leads: &[(LeadKey, LeadTerm)],
    settings: &Settings,
) -> Result<(), RowFault>
    ensures frame { WritesInside S.Store tx.old tx.new result }
    ensures writes { MakesIn office_of_one S.Store tx.old tx.new result
        (WritesTwo leads.now settings.now) }
{
    create_table(tx, LEADS)?;
    replace_all::<Leads, S>(tx, alloc, leads)?;
    replace::<SettingsOfTwo, S>(tx, alloc, &OneRow, settings)
}
