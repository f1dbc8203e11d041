//! What a Settlement Day is settled from.

ghost use Rattle.std.specs.Prelude.{◌≡◌, All, find, filter_map, pos, unwrap_or, IfOk, is_none};
ghost use Rattle.hh_rules.specs.Leads.{lead_on};
ghost use Rattle.hh_states.specs.DaySettlement.{missing_meter, missing_price, periods_on, unit_periods_at};
ghost use Rattle.hh_states.specs.PeriodSettlement.{accounts_on, price_of, reading_of, subsidiaries_of, terms_at, unit_at};
ghost use Rattle.hh_store.specs.DayReads.{ArePeriodsOf, IsDayData};
ghost use Rattle.hh_kept_rows.specs.steps.DayRolls.{led_units_on, row_on, AreLedOn, IsRollOf};
ghost use Rattle.hh_kept_rows.specs.steps.KeptContracts.{period_contracts};
ghost use Rattle.hh_kept_rows.specs.steps.KeptReallocations.{AreReallocations};

use crate::contracts_by_period::{by_period, contracts_of};
use crate::day_places::{DayPlaces, UnitPlaces};
use crate::kept_reallocations::reallocations_of;
use crate::kept_register::KeptRegister;
use hh_calc::{Contracts, PeriodData, Subsidiary, UnitData};
use hh_names::{Account, Contract, Counterparties, Reallocation, Reference, Side, UnitId};
use hh_num::{Kwh, Price};
use hh_rows::{
    ContractKey, ContractRow, ReallocationKey, SettlementPeriod, UnitPeriod, UnitRegistration,
};
use hh_store::{DayData, PeriodState, periods_of};
use hh_time::{Day, SettlementDate};
use std::alloc::{AllocError, Global};

/// What all Settlement Periods of a date have in common: its accounts, its units with their lead accounts
/// of the date, and the rows of contracts in force on it, ordered by their references.
#[derive(Drop)]
pub(crate) struct DayRoll {
    pub(crate) accounts: Vec<Account>,
    pub(crate) units: Vec<(UnitId, UnitRegistration)>,
    pub(crate) contracts: Vec<ContractRow>,
}

impl KeptRegister {
    /// What the Settlement Periods of a day are settled from, and what is missing for that. `Err` only if
    /// memory is refused.
    pub fn day_data(&self, alloc: Global, day: &Day) -> Result<DayData, AllocError>
        ensures { IfOk result (IsDayData self.now (periods_on day.now.date day.now.count)) }
    {
        let periods = periods_of(alloc, day)?;
        let roll = self.roll_of(alloc, day.date)?;
        let places = self.places_of(alloc, &roll, &periods)?;
        let missing_price = self.missing_price(&periods);
        let missing_meter = self.missing_meter(&roll.units, &places, &periods);
        let missing_readings = self.missing_readings(missing_meter, &roll.units, &places, &periods);
        Ok(DayData {
            missing_price,
            missing_meter,
            missing_readings,
            periods: self.data_of(alloc, &roll, &places, &periods)?,
        })
    }

    /// The first of these Settlement Periods that has no price.
    pub(crate) fn missing_price(&self, periods: &[SettlementPeriod]) -> Option<SettlementPeriod>
        ensures { result ≡ missing_price self.now periods.now }
    {
        for at in periods {
            if self.lacks_price(at) {
                return Some(*at);
            }
        }
        None
    }

    /// Whether a Settlement Period has no price.
    fn lacks_price(&self, at: &SettlementPeriod) -> bool
        ensures { result ≡ is_none (price_of self.now at.now) }
    {
        self.prices.get(at).is_none()
    }

    /// What all Settlement Periods of a date have in common.
    pub(crate) fn roll_of(&self, alloc: Global, date: SettlementDate) -> Result<DayRoll, AllocError>
        ensures { IfOk result (IsRollOf self.now date) }
    {
        Ok(DayRoll {
            accounts: self.accounts_on(alloc, date)?,
            units: self.units_on(alloc, date)?,
            contracts: self.rows_on(alloc, date)?,
        })
    }

    /// The accounts of a date, in account order.
    pub(crate) fn accounts_on(
        &self,
        alloc: Global,
        date: SettlementDate,
    ) -> Result<Vec<Account>, AllocError>
        ensures { IfOk result (λ accounts. accounts.items ≡ accounts_on self.now date) }
    {
        let mut accounts = Vec::new(alloc);
        for party in self.parties.rows() {
            if party.1.range.holds(date) {
                accounts.push(Account {
                    party: party.0,
                    side: Side::Production,
                })?;
                accounts.push(Account {
                    party: party.0,
                    side: Side::Consumption,
                })?;
            }
        }
        Ok(accounts)
    }

    /// The units of a date, in the order of their ids, each with the account that leads it on the date in
    /// the place of its latest.
    pub(crate) fn units_on(
        &self,
        alloc: Global,
        date: SettlementDate,
    ) -> Result<Vec<(UnitId, UnitRegistration)>, AllocError>
        ensures { IfOk result (λ units. units.items ≡ led_units_on self.now date) }
    {
        let mut units = Vec::new(alloc);
        for unit in self.units.rows() {
            if unit.1.range.holds(date) {
                let lead = self.lead_on(unit, date);
                units.push((unit.0, UnitRegistration { lead, ..unit.1 }))?;
            }
        }
        Ok(units)
    }

    /// The rows of contracts in force on a date, in the order of their references.
    fn rows_on(&self, alloc: Global, date: SettlementDate) -> Result<Vec<ContractRow>, AllocError>
        ensures { IfOk result (λ rows.
            rows.items ≡ filter_map (row_on self.now date) self.now.contracts) }
    {
        let mut rows = Vec::with_capacity(alloc, self.count_on(date))?;
        let mut near = 0;
        for (key, volume) in self.contracts.rows() {
            if key.at.date == date {
                near = self.place_near(near, &key.reference);
            }
            if let Some(row) = self.row_on(date, near, *key, *volume) {
                rows.push(row)?;
            }
        }
        Ok(rows)
    }

    /// How many contract volumes are in force on a date. Room for their rows is made by this.
    fn count_on(&self, date: SettlementDate) -> usize {
        let volumes = self.contracts.rows();
        volumes
            .iter()
            .filter(|volume| volume.0.at.date == date)
            .count()
    }

    /// The likely place of a reference: `near` or the place after it, because the rows of contracts come in
    /// the order of their references, or otherwise where a search finds it. A wrong place only costs time.
    fn place_near(&self, near: usize, reference: &Reference) -> usize {
        let rows = self.references.rows();
        if is_row_of(rows, near, reference) {
            return near;
        }
        let next = near.saturating_add(1);
        if is_row_of(rows, next, reference) {
            return next;
        }
        self.references.count_below(reference)
    }

    /// The row in force of a contract, if it is of this date. Looks for its reference at `near` first.
    fn row_on(
        &self,
        date: SettlementDate,
        near: usize,
        key: ContractKey,
        volume: Kwh,
    ) -> Option<ContractRow>
        ensures { result ≡ row_on self.now date (key, volume) }
    {
        if key.at.date != date {
            return None;
        }
        let counterparties = self.references.get_near(near, &key.reference)?;
        let contract = Contract {
            counterparties,
            volume,
        };
        Some(ContractRow { key, contract })
    }

    /// The first of these Settlement Periods of one date in which a unit of the date has no reading, with
    /// the first such unit.
    pub(crate) fn missing_meter(
        &self,
        units: &[(UnitId, UnitRegistration)],
        places: &DayPlaces,
        periods: &[SettlementPeriod],
    ) -> Option<UnitPeriod>
        requires { All (λ at. units.now ≡ led_units_on self.now at.date) periods.now }
        ensures { result ≡ missing_meter self.now periods.now }
    {
        for at in periods {
            if let Some(key) = self.missing_meter_at(units, places, at) {
                return Some(key);
            }
        }
        None
    }

    /// The first of the units of a Settlement Period that has no reading.
    fn missing_meter_at(
        &self,
        units: &[(UnitId, UnitRegistration)],
        places: &DayPlaces,
        at: &SettlementPeriod,
    ) -> Option<UnitPeriod>
        requires { units.now ≡ led_units_on self.now at.now.date }
        ensures { result ≡ find (λ key. is_none (reading_of self.now key))
            (unit_periods_at self.now at.now) }
    {
        for (place, unit) in units.iter().enumerate() {
            let key = unit_period(&unit.0, at);
            if self.lacks_reading(places.of_unit(place).reading_at(at), &key) {
                return Some(key);
            }
        }
        None
    }

    /// How many readings these units lack in these Settlement Periods. `first` is the first missing one. If
    /// there is none, nothing is looked for.
    pub(crate) fn missing_readings(
        &self,
        first: Option<UnitPeriod>,
        units: &[(UnitId, UnitRegistration)],
        places: &DayPlaces,
        periods: &[SettlementPeriod],
    ) -> u64 {
        let mut count = 0u64;
        if first.is_none() {
            return count;
        }
        for at in periods {
            count = count.saturating_add(self.missing_readings_at(units, places, at));
        }
        count
    }

    /// How many of these units lack a reading in a Settlement Period.
    fn missing_readings_at(
        &self,
        units: &[(UnitId, UnitRegistration)],
        places: &DayPlaces,
        at: &SettlementPeriod,
    ) -> u64 {
        let mut count = 0u64;
        for (place, unit) in units.iter().enumerate() {
            let key = unit_period(&unit.0, at);
            if self.lacks_reading(places.of_unit(place).reading_at(at), &key) {
                count = count.saturating_add(1);
            }
        }
        count
    }

    /// Whether a unit has no reading in a Settlement Period. Looks at the place `near` first.
    fn lacks_reading(&self, near: usize, key: &UnitPeriod) -> bool
        ensures { result ≡ is_none (reading_of self.now key.now) }
    {
        self.meters.get_near(near, key).is_none()
    }

    /// What these Settlement Periods of one date are settled from.
    fn data_of(
        &self,
        alloc: Global,
        roll: &DayRoll,
        places: &DayPlaces,
        periods: &[SettlementPeriod],
    ) -> Result<Vec<PeriodState>, AllocError>
        requires { All (λ at. IsRollOf self.now at.date roll.now) periods.now }
        ensures { IfOk result (λ terms. ArePeriodsOf self.now periods.now terms.items) }
    {
        let of_periods = by_period(alloc, &roll.contracts)?;
        let mut found = Vec::with_capacity(alloc, periods.len())?;
        for at in periods {
            let contracts = contracts_of(alloc, &of_periods, at.period)?;
            let terms = self.period_data(alloc, roll, places, contracts, at)?;
            let near = places.of_contracts(alloc, at.period)?;
            found.push(PeriodState::Changed(terms.with_contracts_near(near)))?;
        }
        Ok(found)
    }

    /// What a Settlement Period with these contracts is settled from. If it has no price, the price counts
    /// as 0. A unit that has no reading is left out.
    pub(crate) fn period_data(
        &self,
        alloc: Global,
        roll: &DayRoll,
        places: &DayPlaces,
        contracts: Vec<Contract>,
        at: &SettlementPeriod,
    ) -> Result<PeriodData, AllocError>
        requires roll { IsRollOf self.now at.now.date roll.now }
        requires contracts { contracts.items
            ≡ period_contracts roll.now.contracts.items at.now.period }
        ensures { IfOk result (λ terms. terms ≡ terms_at self.now at.now) }
    {
        let accounts = Vec::from_slice(alloc, &roll.accounts)?;
        let units = self.units_at(alloc, &roll.units, places, at)?;
        let price = self.price_at(at);
        Ok(PeriodData::new(accounts, units, Contracts::Rows(contracts), price))
    }

    /// The price of a Settlement Period, or 0 if there is none.
    pub(crate) fn price_at(&self, at: &SettlementPeriod) -> Price
        ensures { result ≡ unwrap_or (price_of self.now at.now) (pos 0) }
    {
        self.prices.get(at).unwrap_or(Price::of(0))
    }

    /// What the units that have a reading in a Settlement Period are settled from. They have their lead
    /// accounts of its date.
    pub(crate) fn units_at(
        &self,
        alloc: Global,
        units: &[(UnitId, UnitRegistration)],
        places: &DayPlaces,
        at: &SettlementPeriod,
    ) -> Result<Vec<UnitData>, AllocError>
        requires { AreLedOn self.now at.now.date units.now }
        ensures { IfOk result (λ terms.
            terms.items ≡ filter_map (unit_at self.now at.now) units.now) }
    {
        let rows = self.reallocation_rows();
        let mut found = Vec::with_capacity(alloc, units.len())?;
        for (place, unit) in units.iter().enumerate() {
            if let Some(unit) = self.unit_at(alloc, rows, unit, places.of_unit(place), at)? {
                found.push(unit)?;
            }
        }
        Ok(found)
    }

    /// What a unit is settled from in a Settlement Period, if it has a reading. It has its lead account of
    /// the date. `rows` are all reallocations in force. Looks for the unit's rows at these places first.
    fn unit_at(
        &self,
        alloc: Global,
        rows: &[(ReallocationKey, Reallocation)],
        unit: &(UnitId, UnitRegistration),
        places: UnitPlaces,
        at: &SettlementPeriod,
    ) -> Result<Option<UnitData>, AllocError>
        requires rows { AreReallocations self.now rows.now }
        requires lead { unit.now.1.lead ≡ lead_on self.now unit.now.0 unit.now.1 at.now.date }
        ensures { IfOk result (λ terms. terms ≡ unit_at self.now at.now unit.now) }
    {
        let key = unit_period(&unit.0, at);
        let Some(reading) = self.meters.get_near(places.reading_at(at), &key) else {
            return Ok(None);
        };
        let subsidiaries = self.subsidiaries_of(alloc, rows, places, &key)?;
        let data = UnitData::new(
            unit.0,
            unit.1.lead,
            unit.1.interconnector,
            reading,
            subsidiaries,
        );
        Ok(Some(data.with_lead_near(places.lead)))
    }

    /// The account that leads a unit on a date.
    fn lead_on(&self, unit: &(UnitId, UnitRegistration), date: SettlementDate) -> Account
        ensures { result ≡ lead_on self.now unit.now.0 unit.now.1 date }
    {
        self.leads.lead_on(&unit.0, date).unwrap_or(unit.1.lead)
    }

    /// The subsidiaries of a unit in a Settlement Period, in account order. `rows` are all reallocations in
    /// force.
    fn subsidiaries_of(
        &self,
        alloc: Global,
        rows: &[(ReallocationKey, Reallocation)],
        places: UnitPlaces,
        key: &UnitPeriod,
    ) -> Result<Vec<Subsidiary>, AllocError>
        requires { AreReallocations self.now rows.now }
        ensures { IfOk result (λ subsidiaries.
            subsidiaries.items ≡ subsidiaries_of self.now key.now) }
    {
        let found = reallocations_of(rows, key, places.reallocations_at(rows, key));
        let mut subsidiaries = Vec::with_capacity(alloc, found.len())?;
        for row in found {
            subsidiaries.push(Subsidiary {
                account: row.0.account,
                reallocation: row.1,
            })?;
        }
        Ok(subsidiaries)
    }
}

/// Whether the row at a place is that of a reference.
fn is_row_of(rows: &[(Reference, Counterparties)], place: usize, reference: &Reference) -> bool {
    match rows.get(place) {
        Some(row) => row.0 == *reference,
        None => false,
    }
}

/// A unit in a Settlement Period.
pub(crate) fn unit_period(unit: &UnitId, at: &SettlementPeriod) -> UnitPeriod
    ensures { result ≡ record { unit = unit.now; at = at.now } }
{
    UnitPeriod {
        unit: *unit,
        at: *at,
    }
}
