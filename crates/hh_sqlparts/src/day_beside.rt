//! What is kept beside the rows of a date.

ghost use Rattle.std.specs.Prelude.{◌≡◌, ◌==◌, filter, map, IfOk, IfSome};
ghost use Rattle.std.specs.Ordering.{eq_by_cmp, is_eq, nat_cmp};
ghost use Rattle.hh_rows.specs.declared.settings.Settings.{Settings};
ghost use Rattle.hh_states.specs.Runs.{last_of, run_key_cmp};
ghost use Rattle.hh_kept_rows.specs.DayBeside.{IsBesideOf};
ghost use Rattle.sqlite.specs.Held.{state};
ghost use Rattle.hh_sqlrows.specs.Contents.{beside_in, content_of, result_of, touched_periods};
ghost use Rattle.hh_sqlrows.specs.Forms.{rows_under_keys};
ghost use Rattle.hh_sqlrows.specs.OfficeTables.{credits, positions, results, runs};
ghost use Rattle.hh_sqlrows.specs.Reads.{FindsOffice, FindsSettled, ReadsOffice, ReadsSettled};

use crate::tables::table_of;
use hh_calc::AccountRow;
use hh_kept_rows::DayBeside;
use hh_num::Ticks;
use hh_rules::{Position, PositionKey, SettlementPeriod};
use hh_runs::{RunKey, Summary};
use hh_sqlrows::tables::{Credits, Positions, Results, Runs, Touched};
use hh_sqlrows::{AccountAmounts, NoColumns, RowFault, select_under};
use hh_states::{CreditKey, ResultKey};
use hh_tables::ListTable;
use hh_time::SettlementDate;
use sqlite::{Alter, Connection};
use std::alloc::{AllocError, Global};

/// What is kept beside the rows of a date: its latest run with that run's rows, its touched Settlement
/// Periods, and its positions.
pub fn select_day_beside<S: Alter>(
    conn: &mut Connection<S>,
    alloc: Global,
    date: SettlementDate,
) -> Result<DayBeside, RowFault>
    ensures frame { ReadsSettled (state S.Store conn.old) (state S.Store conn.new) result }
    ensures value { (settings : Settings) → FindsSettled S.Store conn.old conn.new result
        (λ trees. IsBesideOf (content_of settings trees) (beside_in trees) date) }
{
    let latest = latest_on(conn, alloc, date)?;
    let results = results_of_latest(conn, alloc, &latest)?;
    let credits = credits_of_latest(conn, alloc, &latest)?;
    let positions = positions_on(conn, alloc, date)?;
    let touched = select_touched_on(conn, alloc, &date)?;
    Ok(DayBeside {
        latest,
        results,
        credits,
        touched,
        positions,
    })
}

/// The latest run of a date, with its summary.
fn latest_on<S: Alter>(
    conn: &mut Connection<S>,
    alloc: Global,
    date: SettlementDate,
) -> Result<Option<(RunKey, Summary)>, RowFault>
    ensures frame { ReadsSettled (state S.Store conn.old) (state S.Store conn.new) result }
    ensures value { FindsOffice S.Store conn.old conn.new result
        (λ trees latest. latest
        ≡ last_of (filter (λ e. e.0.date == date) (rows_under_keys runs trees))) }
{
    let runs = select_under::<Runs, SettlementDate, S>(conn, alloc, &date)?;
    Ok(runs.last().copied())
}

/// The rows of the accounts in a run. If there is no run, there are none.
fn results_of_latest<S: Alter>(
    conn: &mut Connection<S>,
    alloc: Global,
    latest: &Option<(RunKey, Summary)>,
) -> Result<ListTable<ResultKey, AccountRow>, RowFault>
    ensures frame { ReadsSettled (state S.Store conn.old) (state S.Store conn.new) result }
    ensures value { FindsOffice S.Store conn.old conn.new result
        (λ trees table. IfSome latest.now (λ run. table
        ≡ filter (λ e. eq_by_cmp run_key_cmp e.0.run run.0)
        (map result_of (rows_under_keys results trees)))) }
{
    match latest {
        Some(run) => {
            let amounts = select_under::<Results, RunKey, S>(conn, alloc, &run.0)?;
            table_of(account_rows(alloc, &amounts)?)
        }
        None => Ok(ListTable::new(alloc)),
    }
}

/// Rows of accounts with their keys.
fn account_rows(
    alloc: Global,
    amounts: &[(ResultKey, AccountAmounts)],
) -> Result<Vec<(ResultKey, AccountRow)>, AllocError>
    ensures { IfOk result (λ rows. rows.items ≡ map result_of amounts.now) }
{
    amounts
        .iter()
        .map(|row| (row.0, row.1.with(row.0.account)))
        .collect(alloc)
}

/// The credits of a run. If there is no run, there are none.
fn credits_of_latest<S: Alter>(
    conn: &mut Connection<S>,
    alloc: Global,
    latest: &Option<(RunKey, Summary)>,
) -> Result<ListTable<CreditKey, Ticks>, RowFault>
    ensures frame { ReadsSettled (state S.Store conn.old) (state S.Store conn.new) result }
    ensures value { FindsOffice S.Store conn.old conn.new result
        (λ trees table. IfSome latest.now (λ run. table
        ≡ filter (λ e. eq_by_cmp run_key_cmp e.0.run run.0) (rows_under_keys credits trees))) }
{
    match latest {
        Some(run) => table_of(select_under::<Credits, RunKey, S>(conn, alloc, &run.0)?),
        None => Ok(ListTable::new(alloc)),
    }
}

/// The positions of a date.
fn positions_on<S: Alter>(
    conn: &mut Connection<S>,
    alloc: Global,
    date: SettlementDate,
) -> Result<ListTable<PositionKey, Position>, RowFault>
    ensures frame { ReadsSettled (state S.Store conn.old) (state S.Store conn.new) result }
    ensures value { FindsOffice S.Store conn.old conn.new result
        (λ trees table. table
        ≡ filter (λ e. is_eq (nat_cmp e.0.at.date date)) (rows_under_keys positions trees)) }
{
    match select_under::<Positions, SettlementDate, S>(conn, alloc, &date) {
        Ok(rows) => table_of(rows),
        Err(fault) => Err(fault),
    }
}

/// The Settlement Periods of a date that were touched, in their order.
fn select_touched_on<S: Alter>(
    conn: &mut Connection<S>,
    alloc: Global,
    date: &SettlementDate,
) -> Result<Vec<SettlementPeriod>, RowFault>
    ensures frame { ReadsOffice (state S.Store conn.old) (state S.Store conn.new) result }
    ensures value { FindsOffice S.Store conn.old conn.new result
        (λ trees found.
        found.items ≡ filter (λ at. at.date == date.now) (touched_periods trees)) }
{
    let found = select_under::<Touched, SettlementDate, S>(conn, alloc, date)?;
    periods_of(alloc, found.as_slice())
}

/// The Settlement Periods of rows that have no other columns.
fn periods_of(
    alloc: Global,
    rows: &[(SettlementPeriod, NoColumns)],
) -> Result<Vec<SettlementPeriod>, RowFault>
    ensures { IfOk result (λ periods. periods.items ≡ map (λ e. e.0) rows.now) }
{
    let mut periods = Vec::with_capacity(alloc, rows.len())?;
    for row in rows {
        periods.push(row.0)?;
    }
    Ok(periods)
}
