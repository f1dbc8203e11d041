//! Writing what an accepted file changes.

ghost use Rattle.hh_sqlrows.specs.Reads.{MakesOffice, WritesInside};
ghost use Rattle.hh_sqlchanges.specs.Writes.{ChangesByLoad};
ghost use Rattle.hh_sqlchanges.specs.steps.Becoming.{StoresLoadAlone};

use crate::beside_writing::write_beside;
use crate::file_rows::write_file_rows;
use crate::unit_writing::write_unit_steps;
use hh_registrations::UnitStep;
use hh_rows::SettlementPeriod;
use hh_rules::{Position, PositionKey};
use hh_sqlrows::tables::{Files, References};
use hh_sqlrows::{LoadChange, RowFault, replace, replace_all};
use sqlite::{Alter, Transaction};
use std::alloc::Global;

/// Writes what an accepted file changes: the file, its rows that are not late, these steps in the tables of
/// units and of registrations, and the references that the file fixes. It also writes these positions, each of
/// which replaces the one with its key, and marks these Settlement Periods as touched. After an `Err` a
/// part of that may be written in the transaction, so it must be undone.
pub fn write_load<S: Alter>(
    tx: &mut Transaction<'_, S>,
    alloc: Global,
    change: &LoadChange,
    steps: &[UnitStep],
    positions: &[(PositionKey, Position)],
    touched: &[SettlementPeriod],
) -> Result<(), RowFault>
    ensures frame { WritesInside S.Store tx.old tx.new result }
    ensures writes { MakesOffice S.Store tx.old tx.new result
        (ChangesByLoad change.now steps.now positions.now touched.now) }
{
    write_content(tx, alloc, change, steps)?;
    write_beside(tx, alloc, positions, touched)
}

/// Writes the file, its rows that are not late, these steps in the tables of units and of registrations,
/// and the references that the file fixes.
fn write_content<S: Alter>(
    tx: &mut Transaction<'_, S>,
    alloc: Global,
    change: &LoadChange,
    steps: &[UnitStep],
) -> Result<(), RowFault>
    ensures frame { WritesInside S.Store tx.old tx.new result }
    ensures writes { MakesOffice S.Store tx.old tx.new result
        (StoresLoadAlone change.now steps.now) }
{
    replace::<Files, S>(tx, alloc, &change.key(), change.file())?;
    write_file_rows(tx, alloc, change.rows())?;
    write_unit_steps(tx, alloc, steps)?;
    replace_all::<References, S>(tx, alloc, change.references())
}
