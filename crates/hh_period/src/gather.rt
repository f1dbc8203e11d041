//! The period that rows make.

ghost use Rattle.std.specs.Prelude.{◌≡◌, ◌≤◌, length, map, IfOk, OnOk};
ghost use Rattle.std.specs.List.{flat_map};
ghost use Rattle.std.specs.List.Sorted.{IsStrictlySortedBy};
ghost use Rattle.hh_names.specs.Accounts.{account_cmp};
ghost use Rattle.hh_names.specs.Faults.{faults, IsOutcomeOrNoMemory};
ghost use Rattle.hh_rows.specs.RowKinds.{most_rows};
ghost use Rattle.hh_period.specs.Rows.{accepted_rows, unit_data_entry, unit_data_of, in_force, period_accounts, period_contract_entry, seller_and_buyer};
ghost use Rattle.hh_period.specs.steps.Rows.{NamesMore};

use hh_calc::UnitData;
use hh_names::{Account, Contract, Fault, Reference};
use hh_texts::{PeriodContractRow, PeriodMeterRow};
use std::alloc::{AllocError, Global};
use std::collections::{BTreeMap, BTreeSet};

/// The BM Unit of a row. It is no interconnector, and has no subsidiaries.
fn unit_data_of(alloc: Global, row: &PeriodMeterRow) -> UnitData
    ensures { result ≡ unit_data_of row.now }
{
    UnitData::new(row.unit, row.lead, false, row.reading, Vec::new(alloc))
}

/// The units of the rows, in the order of their ids. The last row of each unit counts.
pub(crate) fn units_in_force(
    alloc: Global,
    rows: &[PeriodMeterRow],
) -> Result<Vec<UnitData>, AllocError>
    ensures { IfOk result (λ units. units.items ≡ in_force (map unit_data_entry rows.now)) }
{
    let mut units = BTreeMap::new(alloc);
    for row in rows {
        units.insert(row.unit, unit_data_of(alloc, row))?;
    }
    units.into_values().collect(alloc)
}

/// The accounts that the rows name, in account order. Rows that a later one replaces also count.
pub(crate) fn accounts_named(
    alloc: Global,
    meters: &[PeriodMeterRow],
    contracts: &[PeriodContractRow],
) -> Result<Vec<Account>, AllocError>
    ensures accounts { IfOk result (λ all. all.items ≡ period_accounts meters.now contracts.now) }
    ensures ordered { IfOk result (λ all. IsStrictlySortedBy account_cmp all.items) }
{
    let mut accounts = BTreeSet::new(alloc);
    for row in meters {
        accounts.insert(row.lead)?;
    }
    add_counterparties(&mut accounts, contracts)?;
    accounts.into_iter().collect(alloc)
}

/// Adds the seller and the buyer of each row.
fn add_counterparties(
    accounts: &mut BTreeSet<Account>,
    rows: &[PeriodContractRow],
) -> Result<(), AllocError>
    ensures { OnOk result (NamesMore accounts.old.keys accounts.new.keys
        (flat_map seller_and_buyer rows.now)) }
{
    for row in rows {
        accounts.insert(row.contract.counterparties.seller)?;
        accounts.insert(row.contract.counterparties.buyer)?;
    }
    Ok(())
}

/// The contracts of the rows, in the order of their references. The last row of each reference counts.
/// Refusal 35: the same account twice. Refusal 36: another seller or buyer than in the first row of the
/// reference (Section P in shape).
pub(crate) fn contracts_in_force(
    alloc: Global,
    rows: &[PeriodContractRow],
) -> Result<Vec<Contract>, Fault>
    requires { length rows.now ≤ most_rows }
    ensures accepted { IsOutcomeOrNoMemory faults (λ _. rows.now) result (accepted_rows rows.now) }
    ensures contracts { IfOk result (λ all.
        all.items ≡ in_force (map period_contract_entry rows.now)) }
{
    let mut contracts: BTreeMap<Reference, Contract> = BTreeMap::new(alloc);
    for (index, row) in rows.iter().enumerate() {
        let replaced = contracts.insert(row.reference, row.contract)?;
        let known = replaced.map(|contract| contract.counterparties);
        if let Some(refusal) = row.contract.counterparties.refusal_beside(known) {
            return Err(Fault::at_row(refusal, index as u32 + 1));
        }
    }
    Ok(contracts.into_values().collect(alloc)?)
}
