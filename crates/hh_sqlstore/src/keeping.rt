//! Positions and touched Settlement Periods for an office's database in which none are kept.

ghost use Rattle.std.specs.Prelude.{◌≡◌, false, OnErr, OnOk, IsTrue, Some};
ghost use Rattle.sqlite.specs.Held.{state};
ghost use Rattle.sqlite.specs.State.{HasCleanDisk, Survives};
ghost use Rattle.hh_sqlrows.specs.Contents.{mark_in};
ghost use Rattle.hh_sqlrows.specs.Office.{IsOffice};
ghost use Rattle.hh_sqlrows.specs.Reads.{IsHonest};
ghost use Rattle.hh_sqlchanges.specs.Writes.{WritesBesideAnew};
ghost use Rattle.hh_sqlrows.specs.Leaving.{IsUndone, MayStand};
ghost use Rattle.hh_sqlschema.specs.TakenOver.{MayKeepBeside};
ghost use Rattle.hh_sqlstore.specs.steps.Changed.{ChangesNothing, IsChangedBy};
ghost use Rattle.hh_sqlstore.specs.steps.Kept.{IsMarked};

use hh_keyed_rows::RowFault;
use hh_sqlchanges::write_beside_anew;
use hh_sqlparts::{BesideAnew, made_anew_agrees, made_anew_are_written, select_beside_anew};
use hh_sqlrows::tables::Marks;
use hh_sqlrows::{OneRow, select};
use sqlite::{Alter, Connection};
use std::alloc::Global;

/// Makes sure that positions are kept in an office's database. If its mark says that none are, they are
/// made from the contracts in force, and each Settlement Period of each run counts as touched. This is one
/// transaction. `Store` if the database has no mark, or already has positions or touched periods.
pub(crate) fn see_positions_kept<S: Alter>(
    connection: &mut Connection<S>,
    alloc: Global,
) -> Result<(), RowFault>
    requires autocommit { connection.old.in_transaction ≡ false }
    requires settled { let old = state S.Store connection.old in
        IsTrue old.is_open → old.now ≡ old.committed }
    requires office { let old = state S.Store connection.old in
        IsTrue old.is_open → IsOffice old.now }
    ensures kept { let old = state S.Store connection.old in
        let new = state S.Store connection.new in
        HasCleanDisk new → OnOk result (IsMarked old new) }
    ensures undone { let old = state S.Store connection.old in
        let new = state S.Store connection.new in
        OnErr result (ChangesNothing old new) }
    ensures crash { let old = state S.Store connection.old in
        let new = state S.Store connection.new in
        MayKeepBeside old new }
    ensures honest { IsHonest (state S.Store connection.old) (state S.Store connection.new) }
    ensures autocommit { connection.new.in_transaction ≡ false }
{
    match select::<Marks, S>(connection, alloc, &OneRow)? {
        Some(true) => Ok(()),
        Some(false) => keep_positions(connection, alloc),
        None => Err(RowFault::Store),
    }
}

/// Starts to keep positions. They are made from the contracts in force, and each Settlement Period of each
/// run counts as touched.
fn keep_positions<S: Alter>(connection: &mut Connection<S>, alloc: Global) -> Result<(), RowFault>
    requires autocommit { connection.old.in_transaction ≡ false }
    requires settled { let old = state S.Store connection.old in
        IsTrue old.is_open → old.now ≡ old.committed }
    requires office { let old = state S.Store connection.old in
        IsTrue old.is_open → IsOffice old.now }
    requires unmarked { let old = state S.Store connection.old in
        IsTrue old.is_open → mark_in old.now.trees ≡ Some false }
    ensures kept { let old = state S.Store connection.old in
        let new = state S.Store connection.new in
        HasCleanDisk new → OnOk result (IsMarked old new) }
    ensures undone { let old = state S.Store connection.old in
        let new = state S.Store connection.new in
        OnErr result (ChangesNothing old new) }
    ensures crash { let old = state S.Store connection.old in
        let new = state S.Store connection.new in
        MayKeepBeside old new }
    ensures honest { IsHonest (state S.Store connection.old) (state S.Store connection.new) }
    ensures autocommit { connection.new.in_transaction ≡ false }
{
    // Do nothing, but carry laws for the proof: what is made anew agrees with the tables, and can be
    // written.
    made_anew_agrees();
    made_anew_are_written();
    let beside = select_beside_anew(connection, alloc)?;
    commit_beside(connection, alloc, &beside)
}

/// Writes positions and touched Settlement Periods, and that positions are kept, whole or not at all.
fn commit_beside<S: Alter>(
    connection: &mut Connection<S>,
    alloc: Global,
    beside: &BesideAnew,
) -> Result<(), RowFault>
    requires autocommit { connection.old.in_transaction ≡ false }
    requires settled { let old = state S.Store connection.old in
        IsTrue old.is_open → old.now ≡ old.committed }
    ensures made { let old = state S.Store connection.old in
        let new = state S.Store connection.new in
        HasCleanDisk new → OnOk result (IsChangedBy
        (WritesBesideAnew beside.now.positions.items beside.now.touched.items) old new) }
    ensures undone { let old = state S.Store connection.old in
        let new = state S.Store connection.new in
        OnErr result (IsUndone old new) }
    ensures crash { let old = state S.Store connection.old in
        let new = state S.Store connection.new in
        IsOffice old.now → Survives old new (MayStand
        (WritesBesideAnew beside.now.positions.items beside.now.touched.items old.now)) }
    ensures honest { IsHonest (state S.Store connection.old) (state S.Store connection.new) }
    ensures autocommit { connection.new.in_transaction ≡ false }
{
    let mut tx = connection.transaction();
    write_beside_anew(&mut tx, alloc, &beside.positions, &beside.touched)?;
    match tx.commit() {
        Ok(()) => Ok(()),
        Err(error) => Err(RowFault::from(error)),
    }
}
