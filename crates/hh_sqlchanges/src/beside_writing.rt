//! Writing what is kept beside the content.

ghost use Rattle.std.specs.Prelude.{map};
ghost use Rattle.hh_sqlrows.specs.Forms.{PutsAll};
ghost use Rattle.hh_sqlrows.specs.OfficeTables as tables;
ghost use Rattle.hh_sqlrows.specs.Reads.{MakesOffice, WritesInside};
ghost use Rattle.hh_sqlchanges.specs.Writes.{WritesBesideAnew};
ghost use Rattle.hh_sqlchanges.specs.steps.Becoming.{WritesBeside, touched_entry};

use hh_rows::SettlementPeriod;
use hh_rules::{Position, PositionKey};
use hh_sqlrows::tables::{Marks, Positions, Touched};
use hh_sqlrows::{NoColumns, OneRow, RowFault, replace, replace_all};
use sqlite::{Alter, Transaction};
use std::alloc::Global;

/// Writes positions and touched Settlement Periods into a database in which none were kept, and marks that
/// they are kept. After an `Err` a part of that may be written in the transaction, so it must be undone.
pub fn write_beside_anew<S: Alter>(
    tx: &mut Transaction<'_, S>,
    alloc: Global,
    positions: &[(PositionKey, Position)],
    touched: &[SettlementPeriod],
) -> Result<(), RowFault>
    ensures frame { WritesInside S.Store tx.old tx.new result }
    ensures writes { MakesOffice S.Store tx.old tx.new result
        (WritesBesideAnew positions.now touched.now) }
{
    write_beside(tx, alloc, positions, touched)?;
    replace::<Marks, S>(tx, alloc, &OneRow, &true)
}

/// Writes positions, and which Settlement Periods were touched.
pub(crate) fn write_beside<S: Alter>(
    tx: &mut Transaction<'_, S>,
    alloc: Global,
    positions: &[(PositionKey, Position)],
    touched: &[SettlementPeriod],
) -> Result<(), RowFault>
    ensures frame { WritesInside S.Store tx.old tx.new result }
    ensures writes { MakesOffice S.Store tx.old tx.new result
        (WritesBeside positions.now touched.now) }
{
    replace_all::<Positions, S>(tx, alloc, positions)?;
    touch_periods(tx, alloc, touched)
}

/// Writes that Settlement Periods were touched. Rows may say so already.
fn touch_periods<S: Alter>(
    tx: &mut Transaction<'_, S>,
    alloc: Global,
    periods: &[SettlementPeriod],
) -> Result<(), RowFault>
    ensures frame { WritesInside S.Store tx.old tx.new result }
    ensures puts { MakesOffice S.Store tx.old tx.new result
        (PutsAll tables.touched (map touched_entry periods.now)) }
{
    'periods: for at in periods {
        replace::<Touched, S>(tx, alloc, at, &NoColumns)?;
    }
    Ok(())
}
