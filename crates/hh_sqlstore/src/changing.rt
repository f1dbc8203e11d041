//! Changes of an office's database, each in one transaction.

ghost use Rattle.std.specs.Prelude.{◌≡◌, false, OnErr, OnOk, IsTrue};
ghost use Rattle.sqlite.specs.Held.{state};
ghost use Rattle.sqlite.specs.State.{HasCleanDisk, Survives};
ghost use Rattle.hh_sqlrows.specs.Office.{IsOffice};
ghost use Rattle.hh_sqlrows.specs.Reads.{IsHonest};
ghost use Rattle.hh_sqlchanges.specs.Writes.{ChangesByLoad, ChangesByRun};
ghost use Rattle.hh_sqlrows.specs.Leaving.{IsUndone, MayStand};
ghost use Rattle.hh_sqlstore.specs.steps.Changed.{ChangesNothing, IsChangedBy, KeepsLoad, KeepsRun, MayChange};

use hh_keyed_rows::RowFault;
use hh_registrations::UnitStep;
use hh_rows::SettlementPeriod;
use hh_rules::{Position, PositionKey};
use hh_sqlchanges::{periods_touched_by, write_load, write_run};
use hh_sqlparts::select_before_load;
use hh_store::{LoadChange, RunChange};
use sqlite::{Alter, Connection};
use std::alloc::Global;

/// Writes what an accepted file changes, whole or not at all. What its rows change besides them is read
/// first.
pub(crate) fn keep_load<S: Alter>(
    connection: &mut Connection<S>,
    alloc: Global,
    change: &LoadChange,
) -> Result<(), RowFault>
    requires autocommit { connection.old.in_transaction ≡ false }
    requires settled { let old = state S.Store connection.old in
        IsTrue old.is_open → old.now ≡ old.committed }
    requires office { let old = state S.Store connection.old in
        IsTrue old.is_open → IsOffice old.now }
    ensures made { let old = state S.Store connection.old in
        let new = state S.Store connection.new in
        HasCleanDisk new → OnOk result (IsChangedBy (KeepsLoad change.now) old new) }
    ensures undone { let old = state S.Store connection.old in
        let new = state S.Store connection.new in
        OnErr result (ChangesNothing old new) }
    ensures crash { let old = state S.Store connection.old in
        let new = state S.Store connection.new in
        MayChange (KeepsLoad change.now) old new }
    ensures honest { IsHonest (state S.Store connection.old) (state S.Store connection.new) }
    ensures autocommit { connection.new.in_transaction ≡ false }
{
    let read = select_before_load(connection, alloc, change.rows())?;
    let touched = periods_touched_by(alloc, &read.touched, change.rows())?;
    commit_load(
        connection,
        alloc,
        change,
        &read.steps,
        &read.positions,
        &touched,
    )
}

/// Writes an accepted file with these steps in the tables of units and of registrations, positions and
/// touched Settlement Periods, whole or not at all.
fn commit_load<S: Alter>(
    connection: &mut Connection<S>,
    alloc: Global,
    change: &LoadChange,
    steps: &[UnitStep],
    positions: &[(PositionKey, Position)],
    touched: &[SettlementPeriod],
) -> Result<(), RowFault>
    requires autocommit { connection.old.in_transaction ≡ false }
    requires settled { let old = state S.Store connection.old in
        IsTrue old.is_open → old.now ≡ old.committed }
    ensures made { let old = state S.Store connection.old in
        let new = state S.Store connection.new in
        HasCleanDisk new → OnOk result (IsChangedBy
        (ChangesByLoad change.now steps.now positions.now touched.now) old new) }
    ensures undone { let old = state S.Store connection.old in
        let new = state S.Store connection.new in
        OnErr result (IsUndone old new) }
    ensures crash { let old = state S.Store connection.old in
        let new = state S.Store connection.new in
        IsOffice old.now → Survives old new (MayStand
        (ChangesByLoad change.now steps.now positions.now touched.now old.now)) }
    ensures honest { IsHonest (state S.Store connection.old) (state S.Store connection.new) }
    ensures autocommit { connection.new.in_transaction ≡ false }
{
    let mut tx = connection.transaction();
    write_load(&mut tx, alloc, change, steps, positions, touched)?;
    match tx.commit() {
        Ok(()) => Ok(()),
        Err(error) => Err(RowFault::from(error)),
    }
}

/// Writes what a new run changes, whole or not at all.
pub(crate) fn keep_run<S: Alter>(
    connection: &mut Connection<S>,
    alloc: Global,
    change: &RunChange,
) -> Result<(), RowFault>
    requires autocommit { connection.old.in_transaction ≡ false }
    requires settled { let old = state S.Store connection.old in
        IsTrue old.is_open → old.now ≡ old.committed }
    ensures made { let old = state S.Store connection.old in
        let new = state S.Store connection.new in
        HasCleanDisk new → OnOk result (IsChangedBy (KeepsRun change.now) old new) }
    ensures undone { let old = state S.Store connection.old in
        let new = state S.Store connection.new in
        OnErr result (ChangesNothing old new) }
    ensures crash { let old = state S.Store connection.old in
        let new = state S.Store connection.new in
        MayChange (KeepsRun change.now) old new }
    ensures honest { IsHonest (state S.Store connection.old) (state S.Store connection.new) }
    ensures autocommit { connection.new.in_transaction ≡ false }
{
    commit_run(connection, alloc, change)
}

/// Writes a new run, whole or not at all.
fn commit_run<S: Alter>(
    connection: &mut Connection<S>,
    alloc: Global,
    change: &RunChange,
) -> Result<(), RowFault>
    requires autocommit { connection.old.in_transaction ≡ false }
    requires settled { let old = state S.Store connection.old in
        IsTrue old.is_open → old.now ≡ old.committed }
    ensures made { let old = state S.Store connection.old in
        let new = state S.Store connection.new in
        HasCleanDisk new → OnOk result (IsChangedBy (ChangesByRun change.now) old new) }
    ensures undone { let old = state S.Store connection.old in
        let new = state S.Store connection.new in
        OnErr result (IsUndone old new) }
    ensures crash { let old = state S.Store connection.old in
        let new = state S.Store connection.new in
        IsOffice old.now → Survives old new (MayStand (ChangesByRun change.now old.now)) }
    ensures honest { IsHonest (state S.Store connection.old) (state S.Store connection.new) }
    ensures autocommit { connection.new.in_transaction ≡ false }
{
    let mut tx = connection.transaction();
    write_run(&mut tx, alloc, change)?;
    match tx.commit() {
        Ok(()) => Ok(()),
        Err(error) => Err(RowFault::from(error)),
    }
}
