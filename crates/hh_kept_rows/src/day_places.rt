//! The places where the rows of a Settlement Day are likely to be.

use crate::contract_places::{contract_places, places_at};
use crate::kept_day::{DayRoll, unit_period};
use crate::kept_register::KeptRegister;
use hh_calc::ContractPlaces;
use hh_names::{Account, PeriodNumber, Reallocation};
use hh_rows::{ReallocationKey, SettlementPeriod, UnitPeriod};
use std::alloc::{AllocError, Global};

/// For each unit of a date, the places of its rows of the date in the tables, and of its lead account among
/// the accounts. For each contract of a Settlement Period, the places of its accounts among the accounts.
/// Each search looks there first. It finds the same whatever the places are: a wrong place only costs time.
#[derive(Drop)]
pub(crate) struct DayPlaces {
    units: Vec<UnitPlaces>,
    /// The places of the contracts of the Settlement Periods 1 to 50, by their periods.
    contracts: Vec<Vec<ContractPlaces>>,
}

/// The places of a unit's rows of a date in the tables, and of its lead account among the accounts.
#[derive(Clone, Copy)]
pub(crate) struct UnitPlaces {
    /// The place of its lead account among the accounts of the date.
    pub(crate) lead: usize,
    /// The place of its first reading.
    readings: usize,
    /// The place of its first reallocation.
    reallocations: usize,
    /// The place behind its last reallocation.
    reallocations_end: usize,
}

impl DayPlaces {
    /// The places to look at first for the rows of the unit at this place among the units of the date.
    pub(crate) fn of_unit(&self, unit: usize) -> UnitPlaces {
        match self.units.get(unit) {
            Some(places) => *places,
            None => UnitPlaces {
                lead: 0,
                readings: 0,
                reallocations: 0,
                reallocations_end: 0,
            },
        }
    }

    /// The places to look at first for the accounts of the contracts of a Settlement Period.
    pub(crate) fn of_contracts(
        &self,
        alloc: Global,
        period: PeriodNumber,
    ) -> Result<Vec<ContractPlaces>, AllocError> {
        places_at(alloc, &self.contracts, period)
    }
}

impl UnitPlaces {
    /// The place to look at first for the reading in a Settlement Period. It is there if the unit has a
    /// reading in each earlier period of the date.
    pub(crate) fn reading_at(self, at: &SettlementPeriod) -> usize {
        self.readings
            .saturating_add(usize::from(at.period.number()))
            .saturating_sub(1)
    }

    /// The place to look at first for the reallocations of a unit in a Settlement Period.
    pub(crate) fn reallocations_at(
        self,
        rows: &[(ReallocationKey, Reallocation)],
        key: &UnitPeriod,
    ) -> usize {
        match rows.get(self.reallocations..self.reallocations_end) {
            Some(of_date) => self.reallocations.saturating_add(of_date.partition_point(|row| row
                .0
                .unit_period
                .cmp(key)
                .is_lt())),
            None => 0,
        }
    }
}

impl KeptRegister {
    /// The places of the rows that the units of a date have in these Settlement Periods of the date, of their
    /// lead accounts, and of the accounts of the contracts of the date.
    pub(crate) fn places_of(
        &self,
        alloc: Global,
        roll: &DayRoll,
        periods: &[SettlementPeriod],
    ) -> Result<DayPlaces, AllocError> {
        let mut units = Vec::with_capacity(alloc, roll.units.len())?;
        if let (Some(first), Some(last)) = (periods.first(), periods.last()) {
            for unit in roll.units.as_slice() {
                let lead = place_among(&roll.accounts, &unit.1.lead);
                let (first, last) = (unit_period(&unit.0, first), unit_period(&unit.0, last));
                units.push(self.places_between(lead, &first, &last))?;
            }
        }
        let contracts = contract_places(alloc, &roll.accounts, &roll.contracts)?;
        Ok(DayPlaces { units, contracts })
    }

    /// The places of a unit's rows from one Settlement Period up to another, with this place of its lead
    /// account.
    fn places_between(&self, lead: usize, first: &UnitPeriod, last: &UnitPeriod) -> UnitPlaces {
        let rows = self.reallocations.rows();
        UnitPlaces {
            lead,
            readings: self.meters.count_below(first),
            reallocations: rows.partition_point(|row| row.0.unit_period.cmp(first).is_lt()),
            reallocations_end: rows.partition_point(|row| row.0.unit_period.cmp(last).is_le()),
        }
    }
}

/// The place of an account among the accounts of a date, or 0 if it isn't one of them.
pub(crate) fn place_among(accounts: &[Account], account: &Account) -> usize {
    accounts.binary_search(account).unwrap_or(0)
}
