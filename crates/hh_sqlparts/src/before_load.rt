//! What is read before a load is written.

ghost use Rattle.std.specs.Prelude.{◌≡◌, filter, IfOk};
ghost use Rattle.std.specs.List.{list_any};
ghost use Rattle.sqlite.specs.Held.{state};
ghost use Rattle.hh_tables.specs.Tables.{put_all};
ghost use Rattle.hh_registrations.specs.UnitSteps.{steps_of_rows};
ghost use Rattle.hh_rules.specs.Leads.{registered_units};
ghost use Rattle.hh_rules.specs.Positions.{position_key_cmp};
ghost use Rattle.hh_kept_rows.specs.Keeping.{is_held, periods_of_runs, positions_with, touched_by_successions};
ghost use Rattle.hh_sqlrows.specs.Contents.{registered_of};
ghost use Rattle.hh_sqlrows.specs.Forms.{rows_under_keys};
ghost use Rattle.hh_sqlrows.specs.OfficeTables.{contracts, leads, positions, runs};
ghost use Rattle.hh_sqlrows.specs.Reads.{FindsSettled, ReadsSettled};
ghost use Rattle.hh_sqlparts.specs.steps.UnitRows.{is_unit_row, AreChangesOf};

use crate::beside_anew::periods_of_runs;
use crate::changed_positions::select_positions_after;
use crate::tables::{all_leads, all_units};
use hh_registrations::{Registrations, UnitChanges, UnitStep};
use hh_rows::{DateRange, Row, SettlementDate, SettlementPeriod};
use hh_rules::{Position, PositionKey};
use hh_runs::{RunKey, Summary};
use hh_sqlrows::tables::Runs;
use hh_sqlrows::{RowFault, select_all};
use sqlite::{Alter, Connection};
use std::alloc::{AllocError, Global};

/// What a load changes besides its rows: the positions that they change, as they are after them, the steps
/// that they make in the tables of units and of registrations, and the Settlement Periods that successions
/// touch.
#[derive(Drop)]
pub struct BeforeLoad {
    pub positions: Vec<(PositionKey, Position)>,
    pub steps: Vec<UnitStep>,
    pub touched: Vec<SettlementPeriod>,
}

/// What a load of these rows changes besides them.
pub fn select_before_load<S: Alter>(
    conn: &mut Connection<S>,
    alloc: Global,
    rows: &[Row],
) -> Result<BeforeLoad, RowFault>
    ensures frame { ReadsSettled (state S.Store conn.old) (state S.Store conn.new) result }
    ensures positions { FindsSettled S.Store conn.old conn.new result
        (λ trees read.
        put_all position_key_cmp read.positions.items (rows_under_keys positions trees)
        ≡ positions_with rows.now (rows_under_keys contracts trees)
        (rows_under_keys positions trees)) }
    ensures steps { FindsSettled S.Store conn.old conn.new result
        (λ trees read.
        read.steps.items ≡ steps_of_rows rows.now (registered_units (registered_of trees))) }
    ensures touched { FindsSettled S.Store conn.old conn.new result
        (λ trees read. read.touched.items ≡ touched_by_successions rows.now
        (rows_under_keys leads trees) (rows_under_keys runs trees)) }
{
    let positions = select_positions_after(conn, alloc, rows)?;
    let changes = select_unit_changes(conn, alloc, rows)?;
    let touched = select_periods_held(conn, alloc, &changes.successions)?;
    Ok(BeforeLoad {
        positions,
        steps: changes.steps,
        touched,
    })
}

/// What rows change in the tables of units and of registrations. These are read only if a row is one of
/// units.
fn select_unit_changes<S: Alter>(
    conn: &mut Connection<S>,
    alloc: Global,
    rows: &[Row],
) -> Result<UnitChanges, RowFault>
    ensures frame { ReadsSettled (state S.Store conn.old) (state S.Store conn.new) result }
    ensures value { FindsSettled S.Store conn.old conn.new result
        (λ trees. AreChangesOf rows.now (registered_units (registered_of trees))) }
{
    if !have_units(rows) {
        return Ok(UnitChanges {
            steps: Vec::new(alloc),
            successions: Vec::new(alloc),
        });
    }
    let units = all_units(conn, alloc)?;
    let leads = all_leads(conn, alloc)?;
    Ok(Registrations::of(units, leads).changes_of(alloc, rows)?)
}

/// The Settlement Periods of the runs of the dates that these ranges hold. The runs are read only if there
/// is a range.
fn select_periods_held<S: Alter>(
    conn: &mut Connection<S>,
    alloc: Global,
    ranges: &[DateRange],
) -> Result<Vec<SettlementPeriod>, RowFault>
    ensures frame { ReadsSettled (state S.Store conn.old) (state S.Store conn.new) result }
    ensures value { FindsSettled S.Store conn.old conn.new result
        (λ trees found. found.items ≡ periods_of_runs
        (filter (λ e. is_held ranges.now e.0.date) (rows_under_keys runs trees))) }
{
    if ranges.is_empty() {
        return Ok(Vec::new(alloc));
    }
    let made = select_all::<Runs, S>(conn, alloc)?;
    let held = runs_held(alloc, ranges, &made)?;
    periods_of_runs(alloc, &held)
}

/// The runs of the dates that these ranges hold.
fn runs_held(
    alloc: Global,
    ranges: &[DateRange],
    made: &[(RunKey, Summary)],
) -> Result<Vec<(RunKey, Summary)>, AllocError>
    ensures { IfOk result (λ held.
        held.items ≡ filter (λ e. is_held ranges.now e.0.date) made.now) }
{
    let mut held = Vec::new(alloc);
    for run in made {
        if is_held(ranges, run.0.date) {
            held.push(*run)?;
        }
    }
    Ok(held)
}

/// Whether one of these ranges holds the date.
fn is_held(ranges: &[DateRange], date: SettlementDate) -> bool
    ensures { result ≡ is_held ranges.now date }
{
    ranges.iter().any(|range| range.holds(date))
}

/// Whether a row is one of units.
fn have_units(rows: &[Row]) -> bool
    ensures { result ≡ list_any is_unit_row rows.now }
{
    rows.iter().any(|row| is_unit(row))
}

/// Whether a row is one of units.
fn is_unit(row: &Row) -> bool
    ensures { result ≡ is_unit_row row.now }
{
    matches!(row, Row::Unit(_))
}
