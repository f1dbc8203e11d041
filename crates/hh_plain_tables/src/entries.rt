//! The keys and values that the rows of a file put into each table except that of the references.

ghost use Rattle.std.specs.Prelude.{◌≡◌, filter_map, IfOk};
ghost use Rattle.hh_rules.specs.Entries.{contract_entry, meter_entry, party_entry, price_entry, reallocation_entry, unit_entry};

use hh_names::{PartyId, Reading, Reallocation, UnitId};
use hh_num::{Kwh, Price};
use hh_rows::{
    ContractKey, PartyRegistration, ReallocationKey, Row, SettlementPeriod, UnitPeriod,
    UnitRegistration,
};
use std::alloc::{AllocError, Global};

/// The registrations of parties.
pub(crate) fn parties_of(
    alloc: Global,
    rows: &[Row],
) -> Result<Vec<(PartyId, PartyRegistration)>, AllocError>
    ensures { IfOk result (λ entries. entries.items ≡ filter_map party_entry rows.now) }
{
    rows.iter()
        .filter_map(|row| match row {
            Row::Party(row) => Some((row.party, row.registration)),
            _ => None,
        })
        .collect(alloc)
}

/// The registrations of units.
pub(crate) fn units_of(
    alloc: Global,
    rows: &[Row],
) -> Result<Vec<(UnitId, UnitRegistration)>, AllocError>
    ensures { IfOk result (λ entries. entries.items ≡ filter_map unit_entry rows.now) }
{
    rows.iter()
        .filter_map(|row| match row {
            Row::Unit(row) => Some((row.unit, row.registration)),
            _ => None,
        })
        .collect(alloc)
}

/// The readings.
pub(crate) fn meters_of(
    alloc: Global,
    rows: &[Row],
) -> Result<Vec<(UnitPeriod, Reading)>, AllocError>
    ensures { IfOk result (λ entries. entries.items ≡ filter_map meter_entry rows.now) }
{
    rows.iter()
        .filter_map(|row| match row {
            Row::Meter(row) => Some((row.key, row.reading)),
            _ => None,
        })
        .collect(alloc)
}

/// The prices.
pub(crate) fn prices_of(
    alloc: Global,
    rows: &[Row],
) -> Result<Vec<(SettlementPeriod, Price)>, AllocError>
    ensures { IfOk result (λ entries. entries.items ≡ filter_map price_entry rows.now) }
{
    rows.iter()
        .filter_map(|row| match row {
            Row::Price(row) => Some((row.at, row.price)),
            _ => None,
        })
        .collect(alloc)
}

/// The contract volumes.
pub(crate) fn contracts_of(
    alloc: Global,
    rows: &[Row],
) -> Result<Vec<(ContractKey, Kwh)>, AllocError>
    ensures { IfOk result (λ entries. entries.items ≡ filter_map contract_entry rows.now) }
{
    rows.iter()
        .filter_map(|row| match row {
            Row::Contract(row) => Some((row.key, row.contract.volume)),
            _ => None,
        })
        .collect(alloc)
}

/// The reallocations.
pub(crate) fn reallocations_of(
    alloc: Global,
    rows: &[Row],
) -> Result<Vec<(ReallocationKey, Reallocation)>, AllocError>
    ensures { IfOk result (λ entries. entries.items ≡ filter_map reallocation_entry rows.now) }
{
    rows.iter()
        .filter_map(|row| match row {
            Row::Reallocation(row) => Some((row.key, row.reallocation)),
            _ => None,
        })
        .collect(alloc)
}
