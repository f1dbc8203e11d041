//! What a Settlement Day is settled from.

ghost use Rattle.std.specs.Prelude.{◌≡◌};
ghost use Rattle.hh_store.specs.DayReads.{count_changed, is_changed};

use hh_states::{PeriodData, PeriodResult, SettlementPeriod, UnitPeriod};

/// What the Settlement Periods of a date are settled from, and what is missing for that.
#[derive(Debug, Drop)]
pub struct DayData {
    /// The first period that has no price, if there is one.
    pub missing_price: Option<SettlementPeriod>,
    /// The first period in which a unit has no reading, if there is one, with the first such unit by the
    /// bytes of its id.
    pub missing_meter: Option<UnitPeriod>,
    /// How many readings are missing: the sum over the periods of the units of the date that have none
    /// there. No contract depends on it, because it is only shown to people.
    pub missing_readings: u64,
    /// Each period in order. It means nothing if a price or a reading is missing.
    pub periods: Vec<PeriodState>,
}

/// A Settlement Period that is to be settled.
#[derive(Debug, Drop)]
pub enum PeriodState {
    /// It may have changed since a run settled it. This is what it is settled from.
    Changed(PeriodData),
    /// It is as the latest run of its date settled it.
    Same(PeriodResult),
}

impl PeriodState {
    /// Whether it may have changed.
    pub fn is_changed(&self) -> bool
        ensures { result ≡ is_changed self.now }
    {
        match self {
            PeriodState::Changed(_) => true,
            PeriodState::Same(_) => false,
        }
    }
}

impl DayData {
    /// How many Settlement Periods may have changed since a run settled them.
    pub fn changed(&self) -> usize
        ensures { result ≡ count_changed self.now.periods.items }
    {
        let mut count = 0;
        for period in &self.periods {
            if period.is_changed() {
                count += 1;
            }
        }
        count
    }
}
