//! The Settlement Periods of a date, settled.

ghost use Rattle.std.specs.Prelude.{◌≡◌, All, IfErr, IfOk};
ghost use Rattle.hh_calc.specs.Ready.{IsReady};
ghost use Rattle.hh_states.specs.DaySettlement.{periods_on};
ghost use Rattle.hh_store.specs.declared.day_data.PeriodState.TheVariants.{Changed};
ghost use Rattle.hh_day.specs.NewRuns.{SettlesDay};
ghost use Rattle.hh_day.specs.RunLimits.{MayBeSettled};
ghost use Rattle.hh_day.specs.steps.PeriodSteps.{SettlesPeriod};

use crate::laws::settled_in_one_way;
use hh_calc::{CalcFault, PeriodData, PeriodResult, settle_period};
use hh_rows::SettlementPeriod;
use hh_state_laws::nets_settle_alike;
use hh_store::{PeriodState, StoreFault, periods_of};
use hh_time::Day;
use std::alloc::Global;
use std::marker::Model;

/// A Settlement Period with its settlement. Contracts see the two.
#[derive(Debug, Drop)]
pub struct SettledPeriod {
    at: SettlementPeriod,
    result: PeriodResult,
}

impl Model for SettledPeriod {
    ghost use Rattle.hh_calc.specs.Terms.{Settled};
    ghost use Rattle.hh_rows.specs.declared.settlement_period.SettlementPeriod.{SettlementPeriod};

    ghost Value = { SettlementPeriod × Settled };

    ghost view = { λ p. (p.at, p.result) };
}

impl SettledPeriod {
    /// The Settlement Period.
    pub fn at(&self) -> SettlementPeriod
        ensures { result ≡ self.now.0 }
    {
        self.at
    }

    /// Its settlement.
    pub fn result(&self) -> &PeriodResult
        ensures { result.now ≡ self.now.1 }
    {
        &self.result
    }
}

/// The outcome of settling the Settlement Periods of a date (Section T in shape).
#[derive(Debug, Drop)]
pub enum SettledDay {
    /// The first period that passes a limit of settlement.
    TooLarge(SettlementPeriod),
    /// The settlement of each period, in order.
    Settled(Vec<SettledPeriod>),
}

/// Settles the Settlement Periods of a day that may have changed, each from its terms. The others are taken
/// over as they were settled. The first period goes with the first of these states (Section T in shape).
///
/// # Errors
///
/// `Memory` if memory is refused. `Store` if the terms of a period don't fit together, which doesn't happen
/// in a state that the machine reaches.
pub fn settle_day(
    alloc: Global,
    day: &Day,
    states: &[PeriodState],
) -> Result<SettledDay, StoreFault>
    ensures settles { IfOk result (SettlesDay (periods_on day.now.date day.now.count) states.now) }
    ensures memory_alone { All MayBeSettled states.now
        → IfErr result (λ fault. fault ≡ StoreFault.Memory) }
{
    let periods = periods_of(alloc, day)?;
    settle_periods(alloc, &periods, states)
}

/// Settles the Settlement Periods that may have changed, and takes the others over as they were settled.
fn settle_periods(
    alloc: Global,
    periods: &[SettlementPeriod],
    states: &[PeriodState],
) -> Result<SettledDay, StoreFault>
    ensures settles { IfOk result (SettlesDay periods.now states.now) }
    ensures memory_alone { All MayBeSettled states.now
        → IfErr result (λ fault. fault ≡ StoreFault.Memory) }
{
    let mut settled = Vec::with_capacity(alloc, periods.len())?;
    for (at, state) in periods.iter().zip(states) {
        let Some(period) = settle_at(alloc, at, state)? else {
            return Ok(SettledDay::TooLarge(*at));
        };
        settled.push(period)?;
    }
    Ok(SettledDay::Settled(settled))
}

/// A Settlement Period, taken over as it was settled or settled from its terms. `None` if it passes a limit
/// of settlement.
fn settle_at(
    alloc: Global,
    at: &SettlementPeriod,
    state: &PeriodState,
) -> Result<Option<SettledPeriod>, StoreFault>
    ensures settles { IfOk result (SettlesPeriod at.now state.now) }
    ensures memory_alone { MayBeSettled state.now
        → IfErr result (λ fault. fault ≡ StoreFault.Memory) }
{
    match state {
        PeriodState::Changed(terms) => settle_terms(alloc, at, terms),
        PeriodState::Same(result) => Ok(Some(SettledPeriod {
            at: *at,
            result: result.copy(alloc)?,
        })),
    }
}

/// Settles a Settlement Period from its terms. `None` if it passes a limit of settlement.
fn settle_terms(
    alloc: Global,
    at: &SettlementPeriod,
    terms: &PeriodData,
) -> Result<Option<SettledPeriod>, StoreFault>
    ensures settles { IfOk result (SettlesPeriod at.now (Changed terms.now)) }
    ensures memory_alone { IsReady terms.now
        → IfErr result (λ fault. fault ≡ StoreFault.Memory) }
{
    // Laws for the proof. The calls do nothing.
    settled_in_one_way();
    nets_settle_alike();
    if !terms.is_ready() {
        return Err(StoreFault::Store);
    }
    match settle_period(alloc, terms) {
        Ok(result) => Ok(Some(SettledPeriod { at: *at, result })),
        Err(CalcFault::TooLarge) => Ok(None),
        Err(CalcFault::Memory) => Err(StoreFault::Memory),
    }
}
