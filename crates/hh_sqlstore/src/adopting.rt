//! Taking over an office's database.

ghost use Rattle.std.specs.Prelude.{◌≡◌, ◌≢◌, false, Err, IfOk, IsTrue, OnErr, OnOk};
ghost use Rattle.sqlite.specs.Held.{state};
ghost use Rattle.hh_sqlrows.specs.OfficeSchema.{office};
ghost use Rattle.hh_sqlrows.specs.Reads.{IsHonest};
ghost use Rattle.hh_keyed_rows.specs.declared.row_fault.RowFault.TheVariants.{Store};
ghost use Rattle.hh_sqlrows.specs.Leaving.{LeavesDatabase};
ghost use Rattle.hh_sqlschema.specs.TakenOver.{MayKeepBeside};
ghost use Rattle.hh_sqlschema.specs.Adopted.{IsAdoptedFrom};
ghost use Rattle.hh_sqlstore.specs.steps.Kept.{IsMarked};
ghost use Rattle.sqlite.specs.State.{HasCleanDisk};

use crate::keeping::see_positions_kept;
use hh_keyed_rows::RowFault;
use hh_rows::Settings;
use hh_sqlschema::{Rising, settings_of_office};
use sqlite::Connection;
use std::alloc::Global;

/// Takes over the office in this database: reads its settings, and makes the positions that are kept there,
/// if none were.
pub(crate) fn take_over<S: Rising>(
    connection: &mut Connection<S>,
    alloc: Global,
) -> Result<Settings, RowFault>
    ensures adopted { let old = state S.Store connection.old in
        let new = state S.Store connection.new in
        HasCleanDisk new → IfOk result (λ settings.
        IsAdoptedFrom settings old × IsMarked old new) }
    ensures undone { let old = state S.Store connection.old in
        let new = state S.Store connection.new in
        HasCleanDisk new → OnErr result (LeavesDatabase old new) }
    ensures crash { let old = state S.Store connection.old in
        let new = state S.Store connection.new in
        MayKeepBeside old new }
    ensures honest { IsHonest (state S.Store connection.old) (state S.Store connection.new) }
    ensures autocommit { OnOk result (connection.new.in_transaction ≡ false) }
    ensures foreign { (state S.Store connection.old).now.schema ≢ office → result ≡ Err Store }
{
    let settings = settings_of_office(connection, alloc)?;
    see_positions_kept(connection, alloc)?;
    Ok(settings)
}
