//! What must be kept beside an office's tables if nothing is kept beside them yet.

ghost use Rattle.std.specs.Prelude.{◌≡◌, ◌++◌, [], filter_map, IfOk, OnOk};
ghost use Rattle.sqlite.specs.Held.{state};
ghost use Rattle.hh_states.specs.DaySettlement.{periods_on};
ghost use Rattle.hh_states.specs.PeriodSettlement.{row_in_force};
ghost use Rattle.hh_kept_rows.specs.Keeping.{periods_of_runs, positions_by, positions_of};
ghost use Rattle.hh_sqlrows.specs.Contents.{registered_of};
ghost use Rattle.hh_sqlrows.specs.Forms.{rows_under_keys};
ghost use Rattle.hh_sqlrows.specs.OfficeTables.{contracts, references, runs};
ghost use Rattle.hh_sqlparts.specs.BesideAnew.{HasNothingBeside, IsBesideAnew};
ghost use Rattle.hh_sqlrows.specs.Reads.{FindsOffice, FindsSettled, ReadsSettled};

use crate::tables::table_of;
use hh_kept_rows::KeptRegister;
use hh_names::{Contract, PeriodNumber};
use hh_num::Kwh;
use hh_rows::{ContractKey, ContractRow, SettlementPeriod};
use hh_rules::{Position, PositionKey, Positions};
use hh_runs::{RunKey, Summary};
use hh_sqlrows::tables::{Contracts, References, Runs, Touched};
use hh_sqlrows::{RowFault, select_all, tables};
use hh_time::SettlementDate;
use sqlite::{Alter, Connection};
use std::alloc::{AllocError, Global};

/// What must be kept beside an office's tables.
#[derive(Drop)]
pub struct BesideAnew {
    /// The positions of accounts, in the order of their keys.
    pub positions: Vec<(PositionKey, Position)>,
    /// The Settlement Periods that count as touched.
    pub touched: Vec<SettlementPeriod>,
}

/// What must be kept beside an office's tables if nothing is kept beside them yet: the positions from all
/// contracts in force, and each Settlement Period of each run. `Memory`: memory is refused. `Store`:
/// something is kept beside the tables already, or the database refuses, or it contains what no office
/// wrote. After either fault the office is as it was.
pub fn select_beside_anew<S: Alter>(
    conn: &mut Connection<S>,
    alloc: Global,
) -> Result<BesideAnew, RowFault>
    ensures frame { ReadsSettled (state S.Store conn.old) (state S.Store conn.new) result }
    ensures value { FindsSettled S.Store conn.old conn.new result IsBesideAnew }
{
    select_nothing_beside(conn, alloc)?;
    let positions = select_positions_anew(conn, alloc)?;
    let touched = select_periods_of_runs(conn, alloc)?;
    Ok(BesideAnew { positions, touched })
}

/// `Store` if something is kept beside the tables.
fn select_nothing_beside<S: Alter>(conn: &mut Connection<S>, alloc: Global) -> Result<(), RowFault>
    ensures frame { ReadsSettled (state S.Store conn.old) (state S.Store conn.new) result }
    ensures value { FindsSettled S.Store conn.old conn.new result
        (λ trees _. HasNothingBeside trees) }
{
    none_of(select_all::<tables::Positions, S>(conn, alloc)?)?;
    none_of(select_all::<Touched, S>(conn, alloc)?)
}

/// `Store` if there is a row.
fn none_of<T: Drop>(rows: Vec<T>) -> Result<(), RowFault>
    ensures { OnOk result (rows.items ≡ []) }
{
    if rows.is_empty() {
        Ok(())
    } else {
        Err(RowFault::Store)
    }
}

/// The positions from all contracts in force.
fn select_positions_anew<S: Alter>(
    conn: &mut Connection<S>,
    alloc: Global,
) -> Result<Vec<(PositionKey, Position)>, RowFault>
    ensures frame { ReadsSettled (state S.Store conn.old) (state S.Store conn.new) result }
    ensures value { FindsSettled S.Store conn.old conn.new result
        (λ trees found. found.items ≡ positions_by (registered_of trees)) }
{
    let tables = select_all_contracts(conn, alloc)?;
    Ok(positions_by(alloc, &tables)?)
}

/// The positions from all contracts in force in these tables.
fn positions_by(
    alloc: Global,
    tables: &KeptRegister,
) -> Result<Vec<(PositionKey, Position)>, AllocError>
    ensures { IfOk result (λ found. found.items ≡ positions_by tables.now) }
{
    let rows = rows_in_force(alloc, tables)?;
    positions_of(alloc, &rows)?.rows(alloc)
}

/// All contracts in force with the sellers and buyers of all references. The register contains nothing
/// else.
fn select_all_contracts<S: Alter>(
    conn: &mut Connection<S>,
    alloc: Global,
) -> Result<KeptRegister, RowFault>
    ensures frame { ReadsSettled (state S.Store conn.old) (state S.Store conn.new) result }
    ensures value { FindsSettled S.Store conn.old conn.new result
        (λ trees part. (part.contracts ≡ rows_under_keys contracts trees)
        × (part.references ≡ rows_under_keys references trees)) }
{
    let mut part = KeptRegister::new(alloc);
    part.contracts = table_of(select_all::<Contracts, S>(conn, alloc)?)?;
    part.references = table_of(select_all::<References, S>(conn, alloc)?)?;
    Ok(part)
}

/// The rows of all contracts in force, in the order of their keys.
fn rows_in_force(alloc: Global, tables: &KeptRegister) -> Result<Vec<ContractRow>, AllocError>
    ensures { IfOk result (λ rows.
        rows.items ≡ filter_map (row_in_force tables.now) tables.now.contracts) }
{
    let mut rows = Vec::new(alloc);
    for (key, volume) in tables.contracts.rows() {
        if let Some(row) = row_in_force(tables, *key, *volume) {
            rows.push(row)?;
        }
    }
    Ok(rows)
}

/// The row of a contract in force. It is `None` if its reference has no seller and buyer.
fn row_in_force(tables: &KeptRegister, key: ContractKey, volume: Kwh) -> Option<ContractRow>
    ensures { result ≡ row_in_force tables.now (key, volume) }
{
    let counterparties = tables.reference(&key.reference)?;
    let contract = Contract {
        counterparties,
        volume,
    };
    Some(ContractRow { key, contract })
}

/// The positions from these contracts, one after the other.
fn positions_of(alloc: Global, rows: &[ContractRow]) -> Result<Positions, AllocError>
    ensures { IfOk result (λ positions. positions ≡ positions_of rows.now []) }
{
    let mut positions = Positions::new(alloc);
    for row in rows {
        positions.replace(None, row)?;
    }
    Ok(positions)
}

/// The Settlement Periods of all runs.
fn select_periods_of_runs<S: Alter>(
    conn: &mut Connection<S>,
    alloc: Global,
) -> Result<Vec<SettlementPeriod>, RowFault>
    ensures frame { ReadsSettled (state S.Store conn.old) (state S.Store conn.new) result }
    ensures value { FindsOffice S.Store conn.old conn.new result
        (λ trees found. found.items ≡ periods_of_runs (rows_under_keys runs trees)) }
{
    match select_all::<Runs, S>(conn, alloc) {
        Ok(made) => periods_of_runs(alloc, &made),
        Err(fault) => Err(fault),
    }
}

/// The Settlement Periods of these runs. `Store` if a run has more than any date has.
pub(crate) fn periods_of_runs(
    alloc: Global,
    made: &[(RunKey, Summary)],
) -> Result<Vec<SettlementPeriod>, RowFault>
    ensures { IfOk result (λ periods. periods.items ≡ periods_of_runs made.now) }
{
    let mut periods = Vec::new(alloc);
    for run in made {
        push_periods(&mut periods, run.0.date, run.1.periods)?;
    }
    Ok(periods)
}

/// Adds the first `count` Settlement Periods of a date. `Store` if no date has as many.
fn push_periods(
    periods: &mut Vec<SettlementPeriod>,
    date: SettlementDate,
    count: u8,
) -> Result<(), RowFault>
    ensures { OnOk result (periods.new.items ≡ periods.old.items ++ periods_on date count) }
{
    for before in 0..count {
        let Some(period) = PeriodNumber::new(before + 1) else {
            return Err(RowFault::Store);
        };
        periods.push(SettlementPeriod { date, period })?;
    }
    Ok(())
}
