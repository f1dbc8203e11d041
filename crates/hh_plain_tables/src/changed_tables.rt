//! The tables that a load changes, made anew.

ghost use Rattle.std.specs.Prelude.{◌≡◌, unwrap_or, IfOk};
ghost use Rattle.hh_tables.specs.Tables.{put_all};
ghost use Rattle.hh_rules.specs.Leads.{registered_units};
ghost use Rattle.hh_states.specs.Changes.{registered_with};
ghost use Rattle.hh_plain_tables.specs.steps.KeptTables.{after_units, with_changed, with_units};

use crate::entries::{contracts_of, meters_of, parties_of, prices_of, reallocations_of, units_of};
use hh_kept_rows::{KeptRegister, LoadChange};
use hh_names::{Counterparties, PartyId, Reading, Reallocation, Reference, UnitId};
use hh_num::{Kwh, Price};
use hh_registrations::Registrations;
use hh_rows::{
    ContractKey, PartyRegistration, ReallocationKey, SettlementPeriod, UnitPeriod,
    UnitRegistration, UnitRow,
};
use hh_tables::ListTable;
use std::alloc::{AllocError, Global};

/// The tables that a load changes, made anew. A table that it doesn't change is `None`.
#[derive(Drop)]
pub(crate) struct ChangedTables {
    pub(crate) parties: Option<ListTable<PartyId, PartyRegistration>>,
    /// The units, and their registrations.
    pub(crate) units: Option<Registrations>,
    pub(crate) references: Option<ListTable<Reference, Counterparties>>,
    pub(crate) meters: Option<ListTable<UnitPeriod, Reading>>,
    pub(crate) prices: Option<ListTable<SettlementPeriod, Price>>,
    pub(crate) contracts: Option<ListTable<ContractKey, Kwh>>,
    pub(crate) reallocations: Option<ListTable<ReallocationKey, Reallocation>>,
}

/// The tables that a load changes, made anew. `Err` only if memory is refused.
pub(crate) fn changed_by(
    alloc: Global,
    register: &KeptRegister,
    change: &LoadChange,
) -> Result<ChangedTables, AllocError>
    ensures { IfOk result (λ changed.
        with_changed changed register.now ≡ registered_with change.now register.now) }
{
    let rows = change.rows();
    let fixed = Vec::from_slice(alloc, change.references())?;
    let of_units = units_of(alloc, rows)?;
    let parties = with_entries(alloc, &register.parties, parties_of(alloc, rows)?)?;
    let units = with_units(alloc, register, &of_units)?;
    let references = with_entries(alloc, &register.references, fixed)?;
    let meters = with_entries(alloc, &register.meters, meters_of(alloc, rows)?)?;
    let prices = with_entries(alloc, &register.prices, prices_of(alloc, rows)?)?;
    let contracts = with_entries(alloc, &register.contracts, contracts_of(alloc, rows)?)?;
    let reallocations = with_entries(
        alloc,
        &register.reallocations,
        reallocations_of(alloc, rows)?,
    )?;
    Ok(ChangedTables {
        parties,
        units,
        references,
        meters,
        prices,
        contracts,
        reallocations,
    })
}

/// Replaces the tables of the register by those that were made anew. Takes no memory, and can't fail.
pub(crate) fn take_over(register: &mut KeptRegister, changed: ChangedTables)
    ensures { register.new ≡ with_changed changed register.old }
{
    take_table(&mut register.parties, changed.parties);
    take_units(register, changed.units);
    take_table(&mut register.references, changed.references);
    take_table(&mut register.meters, changed.meters);
    take_table(&mut register.prices, changed.prices);
    take_table(&mut register.contracts, changed.contracts);
    take_table(&mut register.reallocations, changed.reallocations);
}

/// The table with entries put into it, made anew, if there are entries.
fn with_entries<K: Ord + Copy, V: Copy>(
    alloc: Global,
    table: &ListTable<K, V>,
    entries: Vec<(K, V)>,
) -> Result<Option<ListTable<K, V>>, AllocError>
    ensures { IfOk result (λ changed.
        unwrap_or changed table.now ≡ put_all K.cmp entries.items table.now) }
{
    if entries.is_empty() {
        return Ok(None);
    }
    Ok(Some(table.with_rows(alloc, entries)?))
}

/// What is registered of units after rows of units, one after the other, made anew, if there are rows.
fn with_units(
    alloc: Global,
    register: &KeptRegister,
    rows: &[(UnitId, UnitRegistration)],
) -> Result<Option<Registrations>, AllocError>
    ensures { IfOk result (λ changed. unwrap_or changed (registered_units register.now)
        ≡ after_units rows.now (registered_units register.now)) }
{
    if rows.is_empty() {
        return Ok(None);
    }
    let units = register.units.with_rows(alloc, Vec::new(alloc))?;
    let mut changed = Registrations::of(units, register.leads.copied(alloc)?);
    for row in rows {
        let (unit, registration) = *row;
        changed.put(&UnitRow { unit, registration })?;
    }
    Ok(Some(changed))
}

/// Takes over what is registered of units, if it was made anew.
fn take_units(register: &mut KeptRegister, changed: Option<Registrations>)
    ensures { register.new ≡ with_units changed register.old }
{
    if let Some(changed) = changed {
        let (units, leads) = changed.into_tables();
        register.units = units;
        register.leads = leads;
    }
}

/// Takes over a table that was made anew, if it was.
fn take_table<K: Ord + Copy, V: Copy>(table: &mut ListTable<K, V>, changed: Option<ListTable<K, V>>)
    ensures { table.new ≡ unwrap_or changed table.old }
{
    if let Some(changed) = changed {
        *table = changed;
    }
}
