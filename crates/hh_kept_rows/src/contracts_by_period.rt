//! The contracts of a date, by their Settlement Periods.

ghost use Rattle.std.specs.Prelude.{◌≡◌, ◌+◌, ◌<◌, ◌++◌, ◌∷◌, [], List, IfOk, OnOk};
ghost use Rattle.hh_rows.specs.declared.rows.ContractRow.{ContractRow};
ghost use Rattle.hh_kept_rows.specs.steps.KeptContracts.{period_contracts, AreByPeriod};

use hh_names::{Contract, PeriodNumber};
use hh_rows::ContractRow;
use std::alloc::{AllocError, Global};

/// The most Settlement Periods that a date has.
pub(crate) const MOST_PERIODS: usize = 50;

/// The fewest Settlement Periods that a date has. Room for the contracts of each is made by this.
pub(crate) const LEAST_PERIODS: usize = 46;

/// The contracts of rows by their Settlement Periods, 1 to 50. Those of one period keep their order.
pub(crate) fn by_period(
    alloc: Global,
    rows: &[ContractRow],
) -> Result<Vec<Vec<Contract>>, AllocError>
    ensures { IfOk result (λ periods. AreByPeriod rows.now periods.items) }
{
    let mut periods = no_contracts(alloc, rows.len() / LEAST_PERIODS)?;
    for row in rows {
        push_row(&mut periods, row)?;
    }
    Ok(periods)
}

/// The Settlement Periods 1 to 50 without contracts, each with room for `room` of them.
fn no_contracts(alloc: Global, room: usize) -> Result<Vec<Vec<Contract>>, AllocError>
    ensures { IfOk result (λ periods. AreByPeriod [] periods.items) }
{
    let mut periods = Vec::with_capacity(alloc, MOST_PERIODS)?;
    for _ in 0..MOST_PERIODS {
        periods.push(Vec::with_capacity(alloc, room)?)?;
    }
    Ok(periods)
}

/// Adds the contract of a row to those of its Settlement Period.
fn push_row(periods: &mut Vec<Vec<Contract>>, row: &ContractRow) -> Result<(), AllocError>
    ensures { (rows : List ContractRow) → AreByPeriod rows periods.old.items
        → OnOk result (AreByPeriod (rows ++ row.now ∷ []) periods.new.items) }
{
    let place = place_of(row.key.at.period);
    match periods.get_mut(place) {
        Some(contracts) => Ok(contracts.push(row.contract)?),
        None => Ok(()),
    }
}

/// The contracts of a Settlement Period.
pub(crate) fn contracts_of(
    alloc: Global,
    periods: &[Vec<Contract>],
    period: PeriodNumber,
) -> Result<Vec<Contract>, AllocError>
    ensures { (rows : List ContractRow) → AreByPeriod rows periods.now
        → IfOk result (λ contracts. contracts.items ≡ period_contracts rows period) }
{
    match periods.get(place_of(period)) {
        Some(contracts) => Vec::from_slice(alloc, contracts),
        None => Ok(Vec::new(alloc)),
    }
}

/// The contracts of a Settlement Period, found by going through rows.
pub(crate) fn contracts_at(
    alloc: Global,
    rows: &[ContractRow],
    period: PeriodNumber,
) -> Result<Vec<Contract>, AllocError>
    ensures { IfOk result (λ contracts. contracts.items ≡ period_contracts rows.now period) }
{
    let mut contracts = Vec::new(alloc);
    for row in rows {
        if row.key.at.period == period {
            contracts.push(row.contract)?;
        }
    }
    Ok(contracts)
}

/// The place of a Settlement Period, counted from 0.
pub(crate) fn place_of(period: PeriodNumber) -> usize
    ensures place { result + 1 ≡ period }
    ensures inside { result < 50 }
{
    usize::from(period.number()) - 1
}
