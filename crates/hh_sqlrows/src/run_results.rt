//! What accounts have in the Settlement Periods of runs, as it is written and given.

ghost use Rattle.std.specs.Prelude.{◌≡◌, map, IfOk};
ghost use Rattle.std.specs.List.Sorted.{IsNonDecreasingBy};
ghost use Rattle.sqlite.specs.Held.{state};
ghost use Rattle.hh_devices.specs.DeviceChanges.{change};
ghost use Rattle.hh_sqltables.specs.Giving.{GivesEach, GivesToNew};
ghost use Rattle.hh_sqlrows.specs.Contents.{period_row, rows_of_run};
ghost use Rattle.hh_sqlrows.specs.Forms.{PutsAll};
ghost use Rattle.hh_sqlrows.specs.OfficeTables.{amount_entry, results};
ghost use Rattle.hh_sqlrows.specs.Reads.{MakesOffice, OfOffice, ReadsOffice, WritesInside};

use crate::tables::Results;
use hh_devices::Sink;
use hh_keyed_rows::{AccountAmounts, OutputFault, ResultKey, RowFault};
use hh_reports::AccountRow;
use hh_runs::RunKey;
use hh_sqltables::{GROUP, RowTaker, give_under, insert_all};
use sqlite::{Alter, Connection, Transaction};
use std::alloc::{AllocError, Global};

/// Writes the rows of accounts of a new run. The account of each is that of its key.
pub fn insert_results<S: Alter>(
    tx: &mut Transaction<'_, S>,
    alloc: Global,
    rows: &[(ResultKey, AccountRow)],
) -> Result<(), RowFault>
    ensures frame { WritesInside S.Store tx.old tx.new result }
    ensures puts { MakesOffice S.Store tx.old tx.new result
        (PutsAll results (map amount_entry rows.now)) }
{
    'groups: for group in rows.chunks(GROUP) {
        let amounts = amounts_under_keys(alloc, group)?;
        insert_all::<Results, S>(tx, alloc, amounts.as_slice())?;
    }
    Ok(())
}

/// The rows of accounts without their accounts, which are in the keys. `Err` only if memory is refused.
fn amounts_under_keys(
    alloc: Global,
    rows: &[(ResultKey, AccountRow)],
) -> Result<Vec<(ResultKey, AccountAmounts)>, AllocError>
    ensures { IfOk result (λ entries. entries.items ≡ map amount_entry rows.now) }
{
    let mut entries = Vec::with_capacity(alloc, rows.len())?;
    'rows: for row in rows {
        entries.push((row.0, AccountAmounts::of(&row.1)))?;
    }
    Ok(entries)
}

/// Gives a taker what the accounts have in the Settlement Periods of a run, by period, then by account,
/// one row after the other.
pub fn give_results_of<S: Alter, T: RowTaker<ResultKey, AccountAmounts>, O: Sink>(
    conn: &mut Connection<S>,
    alloc: Global,
    run: &RunKey,
    taker: &mut T,
    out: &mut O,
) -> Result<(), OutputFault>
    ensures frame { ReadsOffice (state S.Store conn.old) (state S.Store conn.new) result }
    ensures gives { let old = state S.Store conn.old in
        let new = state S.Store conn.new in
        GivesToNew (change O.taken O.failures) T.has T.stopped out.old out.new taker.old taker.new
        (λ has stopped. GivesEach has stopped (OfOffice old new)
        (rows_of_run run.now old.now.trees) result) }
    ensures in_order { IsNonDecreasingBy (λ e. e.0)
        (map period_row (rows_of_run run.now (state S.Store conn.old).now.trees)) }
{
    give_under::<Results, RunKey, S, T, O>(conn, alloc, run, taker, out)
}
