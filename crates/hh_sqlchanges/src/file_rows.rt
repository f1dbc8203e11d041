//! Writing the rows of a file, a group by one statement where that can be.

ghost use Rattle.std.specs.Prelude.{◌≡◌, filter_map, length, IfOk, IsTrue};
ghost use Rattle.hh_rules.specs.Entries.{contract_entry, meter_entry};
ghost use Rattle.hh_sqlrows.specs.Reads.{MakesByAnswer, MakesByAnswerIn, MakesOffice, WritesInside};
ghost use Rattle.hh_sqlrows.specs.steps.Forms.{PutsAllOrLeavesIn};
ghost use Rattle.hh_sqlchanges.specs.steps.Becoming.{Becomes, BecomesOrLeaves};
ghost use Rattle.hh_sqlchanges.specs.steps.FileRows.{with_file_row, with_file_rows};

use hh_names::Reading;
use hh_num::Kwh;
use hh_rows::{ContractKey, Row, UnitPeriod};
use hh_sqlrows::tables::{Contracts, Meters, Parties, Prices, Reallocations};
use hh_sqlrows::{GROUP, Grouped, RowFault, insert_group, replace};
use sqlite::{Alter, Transaction};
use std::alloc::{AllocError, Global};

/// Writes rows of a file: a group by one statement as long as their keys are new, and from the first
/// group in which one is not, one after the other.
pub(crate) fn write_file_rows<S: Alter>(
    tx: &mut Transaction<'_, S>,
    alloc: Global,
    rows: &[Row],
) -> Result<(), RowFault>
    ensures frame { WritesInside S.Store tx.old tx.new result }
    ensures writes { MakesOffice S.Store tx.old tx.new result (Becomes (with_file_rows rows.now)) }
{
    let mut are_new = true;
    'groups: for group in rows.chunks(GROUP) {
        are_new = write_group(tx, alloc, group, are_new)?;
    }
    Ok(())
}

/// Writes a group of rows, and says whether one statement did. It is tried only where their keys may be
/// new.
fn write_group<S: Alter>(
    tx: &mut Transaction<'_, S>,
    alloc: Global,
    rows: &[Row],
    may_be_new: bool,
) -> Result<bool, RowFault>
    ensures frame { WritesInside S.Store tx.old tx.new result }
    ensures writes { MakesOffice S.Store tx.old tx.new result (Becomes (with_file_rows rows.now)) }
{
    if may_be_new {
        write_new_group(tx, alloc, rows)
    } else {
        write_each_row(tx, alloc, rows)?;
        Ok(false)
    }
}

/// Writes a group of rows, and says whether one statement did. It does where their keys are new.
fn write_new_group<S: Alter>(
    tx: &mut Transaction<'_, S>,
    alloc: Global,
    rows: &[Row],
) -> Result<bool, RowFault>
    ensures frame { WritesInside S.Store tx.old tx.new result }
    ensures writes { MakesOffice S.Store tx.old tx.new result (Becomes (with_file_rows rows.now)) }
{
    if insert_rows(tx, alloc, rows)? {
        Ok(true)
    } else {
        write_each_row(tx, alloc, rows)?;
        Ok(false)
    }
}

/// Writes a group of readings or of contracts by one statement, if their keys are new. `false` where not, or
/// where the rows are not all of one of these kinds. Nothing is written then.
fn insert_rows<S: Alter>(
    tx: &mut Transaction<'_, S>,
    alloc: Global,
    rows: &[Row],
) -> Result<bool, RowFault>
    ensures frame { WritesInside S.Store tx.old tx.new result }
    ensures writes { MakesByAnswer S.Store tx.old tx.new result
        (BecomesOrLeaves (with_file_rows rows.now)) }
{
    match rows.first() {
        Some(Row::Meter(_)) => {
            let readings = readings_of(alloc, rows)?;
            insert_whole::<Meters, S>(tx, alloc, rows, readings.as_slice())
        }
        Some(Row::Contract(_)) => {
            let volumes = volumes_of(alloc, rows)?;
            insert_whole::<Contracts, S>(tx, alloc, rows, volumes.as_slice())
        }
        _ => Ok(false),
    }
}

/// Writes a group of a table's rows by one statement, if their keys are new. `false` where not, or where
/// they are not as many as these rows of a file. Nothing is written then.
fn insert_whole<T: Grouped, S: Alter>(
    tx: &mut Transaction<'_, S>,
    alloc: Global,
    rows: &[Row],
    entries: &[(T::Key, T::Value)],
) -> Result<bool, RowFault>
    ensures frame { WritesInside S.Store tx.old tx.new result }
    ensures puts { MakesByAnswerIn T.schema S.Store tx.old tx.new result
        (PutsAllOrLeavesIn T.schema T.form entries.now) }
    ensures whole { IfOk result (λ written.
        IsTrue written → length entries.now ≡ length rows.now) }
{
    if entries.len() == rows.len() {
        insert_group::<T, S>(tx, alloc, entries)
    } else {
        Ok(false)
    }
}

/// The readings among rows.
fn readings_of(alloc: Global, rows: &[Row]) -> Result<Vec<(UnitPeriod, Reading)>, AllocError>
    ensures { IfOk result (λ entries. entries.items ≡ filter_map meter_entry rows.now) }
{
    rows.iter()
        .filter_map(|row| match row {
            Row::Meter(row) => Some((row.key, row.reading)),
            _ => None,
        })
        .collect(alloc)
}

/// The volumes of the contracts among rows.
fn volumes_of(alloc: Global, rows: &[Row]) -> Result<Vec<(ContractKey, Kwh)>, AllocError>
    ensures { IfOk result (λ entries. entries.items ≡ filter_map contract_entry rows.now) }
{
    rows.iter()
        .filter_map(|row| match row {
            Row::Contract(row) => Some((row.key, row.contract.volume)),
            _ => None,
        })
        .collect(alloc)
}

/// Writes rows of a file, one after the other.
fn write_each_row<S: Alter>(
    tx: &mut Transaction<'_, S>,
    alloc: Global,
    rows: &[Row],
) -> Result<(), RowFault>
    ensures frame { WritesInside S.Store tx.old tx.new result }
    ensures writes { MakesOffice S.Store tx.old tx.new result (Becomes (with_file_rows rows.now)) }
{
    'rows: for row in rows {
        write_file_row(tx, alloc, row)?;
    }
    Ok(())
}

/// Writes a row of a file into the table of its kind. What rows of units change is written apart.
fn write_file_row<S: Alter>(
    tx: &mut Transaction<'_, S>,
    alloc: Global,
    row: &Row,
) -> Result<(), RowFault>
    ensures frame { WritesInside S.Store tx.old tx.new result }
    ensures writes { MakesOffice S.Store tx.old tx.new result (Becomes (with_file_row row.now)) }
{
    match row {
        Row::Party(row) => replace::<Parties, S>(tx, alloc, &row.party, &row.registration),
        Row::Unit(_) => Ok(()),
        Row::Meter(row) => replace::<Meters, S>(tx, alloc, &row.key, &row.reading),
        Row::Price(row) => replace::<Prices, S>(tx, alloc, &row.at, &row.price),
        Row::Contract(row) => { replace::<Contracts, S>(tx, alloc, &row.key, &row.contract.volume) }
        Row::Reallocation(row) => {
            replace::<Reallocations, S>(tx, alloc, &row.key, &row.reallocation)
        }
    }
}
