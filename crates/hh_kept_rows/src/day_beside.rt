//! What a Settlement Day is settled from, if a store keeps something beside the tables.

ghost use Rattle.std.specs.Prelude.{◌≡◌, All, IfOk};
ghost use Rattle.std.specs.List.{AllZip};
ghost use Rattle.hh_calc.specs.Ready.{HasNetVolumes};
ghost use Rattle.hh_calc.specs.Terms.{contracts_given};
ghost use Rattle.hh_states.specs.DaySettlement.{periods_on};
ghost use Rattle.hh_states.specs.PeriodSettlement.{terms_at};
ghost use Rattle.hh_kept_rows.specs.DayBeside.{IsDayBeside, IsStateBeside};
ghost use Rattle.hh_kept_rows.specs.steps.DayRolls.{IsHeadOf};

use crate::contracts_by_period::contracts_at;
use crate::day_places::DayPlaces;
use crate::kept_day::DayRoll;
use crate::kept_register::KeptRegister;
use crate::net_volumes::nets_at;
use hh_calc::{Contracts, PeriodData};
use hh_rows::SettlementPeriod;
use hh_settled_periods::DayBeside;
use hh_store::{DayData, PeriodState, periods_of};
use hh_time::{Day, SettlementDate};
use std::alloc::{AllocError, Global};

impl KeptRegister {
    /// What the Settlement Periods of a day are settled from, and what is missing for that. Periods
    /// that have not changed since the latest run are taken over as it settled them. `Err` only if memory
    /// is refused.
    pub fn day_data_beside(
        &self,
        alloc: Global,
        day: &Day,
        beside: &DayBeside,
    ) -> Result<DayData, AllocError>
        ensures { IfOk result (IsDayBeside self.now beside.now
            (periods_on day.now.date day.now.count)) }
    {
        let periods = periods_of(alloc, day)?;
        let roll = self.head_of(alloc, day.date)?;
        let places = self.places_of(alloc, &roll, &periods)?;
        let missing_price = self.missing_price(&periods);
        let missing_meter = self.missing_meter(&roll.units, &places, &periods);
        let missing_readings = self.missing_readings(missing_meter, &roll.units, &places, &periods);
        Ok(DayData {
            missing_price,
            missing_meter,
            missing_readings,
            periods: self.states_of(alloc, &roll, &places, beside, &periods)?,
        })
    }

    /// The states of these Settlement Periods of one date.
    fn states_of(
        &self,
        alloc: Global,
        roll: &DayRoll,
        places: &DayPlaces,
        beside: &DayBeside,
        periods: &[SettlementPeriod],
    ) -> Result<Vec<PeriodState>, AllocError>
        requires { All (λ at. IsHeadOf self.now at.date roll.now) periods.now }
        ensures { IfOk result (λ states.
            AllZip (IsStateBeside self.now beside.now) periods.now states.items) }
    {
        let mut states = Vec::with_capacity(alloc, periods.len())?;
        for at in periods {
            let state = self.state_of(alloc, roll, places, beside, at)?;
            states.push(state)?;
        }
        Ok(states)
    }

    /// What a Settlement Period is settled from, or its settlement in the latest run.
    fn state_of(
        &self,
        alloc: Global,
        roll: &DayRoll,
        places: &DayPlaces,
        beside: &DayBeside,
        at: &SettlementPeriod,
    ) -> Result<PeriodState, AllocError>
        requires { IsHeadOf self.now at.now.date roll.now }
        ensures { IfOk result (IsStateBeside self.now beside.now at.now) }
    {
        if let Some(result) = beside.same_since(alloc, &roll.accounts, at)? {
            return Ok(PeriodState::Same(result));
        }
        if let Some(nets) = nets_at(alloc, &beside.positions, &roll.accounts, at)? {
            let terms = self.data_with(alloc, roll, places, Contracts::Net(nets), at)?;
            return Ok(PeriodState::Changed(terms));
        }
        let roll = self.roll_of(alloc, at.date)?;
        let contracts = contracts_at(alloc, &roll.contracts, at.period)?;
        let terms = self.period_data(alloc, &roll, places, contracts, at)?;
        Ok(PeriodState::Changed(terms))
    }

    /// What all Settlement Periods of a date have in common, without the contracts.
    fn head_of(&self, alloc: Global, date: SettlementDate) -> Result<DayRoll, AllocError>
        ensures { IfOk result (IsHeadOf self.now date) }
    {
        Ok(DayRoll {
            accounts: self.accounts_on(alloc, date)?,
            units: self.units_on(alloc, date)?,
            contracts: Vec::new(alloc),
        })
    }

    /// What a Settlement Period is settled from, with these contracts instead of its own.
    fn data_with(
        &self,
        alloc: Global,
        roll: &DayRoll,
        places: &DayPlaces,
        contracts: Contracts,
        at: &SettlementPeriod,
    ) -> Result<PeriodData, AllocError>
        requires { IsHeadOf self.now at.now.date roll.now }
        ensures { IfOk result (λ terms.
            terms ≡ record (terms_at self.now at.now) { contracts = contracts_given contracts }) }
    {
        let accounts = Vec::from_slice(alloc, &roll.accounts)?;
        let units = self.units_at(alloc, &roll.units, places, at)?;
        let price = self.price_at(at);
        Ok(PeriodData::new(accounts, units, contracts, price))
    }
}
