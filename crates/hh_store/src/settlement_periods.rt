//! The Settlement Periods of a day.

ghost use Rattle.std.specs.Prelude.{◌≡◌, IfOk};
ghost use Rattle.hh_states.specs.DaySettlement.{periods_on};

use hh_states::{PeriodNumber, SettlementPeriod};
use hh_time::Day;
use std::alloc::{AllocError, Global};

/// The Settlement Periods of a day, from the first on. `Err` only if memory is refused.
pub fn periods_of(alloc: Global, day: &Day) -> Result<Vec<SettlementPeriod>, AllocError>
    ensures { IfOk result (λ periods. periods.items ≡ periods_on day.now.date day.now.count) }
{
    let mut periods = Vec::with_capacity(alloc, usize::from(day.count))?;
    for before in 0..day.count {
        if let Some(period) = PeriodNumber::new(before + 1) {
            periods.push(SettlementPeriod {
                date: day.date,
                period,
            })?;
        }
    }
    Ok(periods)
}
