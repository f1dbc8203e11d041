//! Writing what a new run changes.

ghost use Rattle.hh_sqlrows.specs.Reads.{MakesOffice, WritesInside};
ghost use Rattle.hh_sqlchanges.specs.Writes.{ChangesByRun};
ghost use Rattle.hh_sqlchanges.specs.steps.Becoming.{StoresRunAlone};

use hh_sqlrows::tables::{Credits, Postings, Runs, Touched};
use hh_sqlrows::{
    RowFault, RunChange, insert_all, insert_results, remove_under, replace, replace_all,
};
use hh_time::SettlementDate;
use sqlite::{Alter, Transaction};
use std::alloc::Global;

/// Writes what a new run changes: its summary, the rows of its accounts, its credits and its postings. It
/// also writes that no Settlement Period of its date is touched any more. After an `Err` a part of that may
/// be written in the transaction, so it must be undone.
pub fn write_run<S: Alter>(
    tx: &mut Transaction<'_, S>,
    alloc: Global,
    change: &RunChange,
) -> Result<(), RowFault>
    ensures frame { WritesInside S.Store tx.old tx.new result }
    ensures writes { MakesOffice S.Store tx.old tx.new result (ChangesByRun change.now) }
{
    write_run_rows(tx, alloc, change)?;
    remove_under::<Touched, SettlementDate, S>(tx, alloc, &change.key().date)
}

/// Writes a run's summary, the rows of its accounts, its credits and its postings.
fn write_run_rows<S: Alter>(
    tx: &mut Transaction<'_, S>,
    alloc: Global,
    change: &RunChange,
) -> Result<(), RowFault>
    ensures frame { WritesInside S.Store tx.old tx.new result }
    ensures writes { MakesOffice S.Store tx.old tx.new result (StoresRunAlone change.now) }
{
    replace::<Runs, S>(tx, alloc, &change.key(), &change.summary())?;
    insert_results(tx, alloc, change.results())?;
    insert_all::<Credits, S>(tx, alloc, change.credits())?;
    replace_all::<Postings, S>(tx, alloc, change.postings())
}
