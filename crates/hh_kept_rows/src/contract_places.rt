//! The places where the accounts of a date's contracts are likely to be.

use crate::contracts_by_period::{LEAST_PERIODS, MOST_PERIODS, place_of};
use crate::day_places::place_among;
use hh_calc::ContractPlaces;
use hh_names::{Account, Counterparties, PeriodNumber};
use hh_rows::ContractRow;
use std::alloc::{AllocError, Global};

/// The places of the accounts of contracts among these accounts, by the Settlement Periods of their rows, 1
/// to 50. Those of one period keep their order.
pub(crate) fn contract_places(
    alloc: Global,
    accounts: &[Account],
    rows: &[ContractRow],
) -> Result<Vec<Vec<ContractPlaces>>, AllocError> {
    let mut periods = no_places(alloc, rows.len() / LEAST_PERIODS)?;
    let mut places = ContractPlaces {
        seller: 0,
        buyer: 0,
    };
    for (place, row) in rows.iter().enumerate() {
        if !follows_its_reference(rows, place) {
            places = places_of(accounts, &row.contract.counterparties);
        }
        push_places(&mut periods, row.key.at.period, places)?;
    }
    Ok(periods)
}

/// No places for each of the Settlement Periods 1 to 50, with room for `room` of them each.
fn no_places(alloc: Global, room: usize) -> Result<Vec<Vec<ContractPlaces>>, AllocError> {
    let mut periods = Vec::with_capacity(alloc, MOST_PERIODS)?;
    for _ in 0..MOST_PERIODS {
        periods.push(Vec::with_capacity(alloc, room)?)?;
    }
    Ok(periods)
}

/// Whether the row at a place has the reference of the row before it, and so the same accounts.
fn follows_its_reference(rows: &[ContractRow], place: usize) -> bool {
    if place == 0 || place >= rows.len() {
        return false;
    }
    rows[place - 1].key.reference == rows[place].key.reference
}

/// The places of the accounts of a seller and a buyer among these accounts.
fn places_of(accounts: &[Account], counterparties: &Counterparties) -> ContractPlaces {
    ContractPlaces {
        seller: place_among(accounts, &counterparties.seller),
        buyer: place_among(accounts, &counterparties.buyer),
    }
}

/// Adds the places of a contract to those of its Settlement Period.
fn push_places(
    periods: &mut Vec<Vec<ContractPlaces>>,
    period: PeriodNumber,
    places: ContractPlaces,
) -> Result<(), AllocError> {
    match periods.get_mut(place_of(period)) {
        Some(of_period) => Ok(of_period.push(places)?),
        None => Ok(()),
    }
}

/// The places of the contracts of a Settlement Period.
pub(crate) fn places_at(
    alloc: Global,
    periods: &[Vec<ContractPlaces>],
    period: PeriodNumber,
) -> Result<Vec<ContractPlaces>, AllocError> {
    match periods.get(place_of(period)) {
        Some(places) => Vec::from_slice(alloc, places),
        None => Ok(Vec::new(alloc)),
    }
}
