//! The units that are effective on a date.

ghost use Rattle.std.specs.Prelude.{◌≡◌, map, IfOk};
ghost use Rattle.hh_sqlparts.specs.steps.DayParts.{ids_on, on_date};

use hh_names::UnitId;
use hh_rows::UnitRegistration;
use hh_sqlrows::UnitDate;
use hh_time::SettlementDate;
use std::alloc::{AllocError, Global};

/// The ids of the units that are effective on a date.
pub(crate) fn ids_on(
    alloc: Global,
    units: &[(UnitId, UnitRegistration)],
    date: SettlementDate,
) -> Result<Vec<UnitId>, AllocError>
    ensures { IfOk result (λ ids. ids.items ≡ ids_on date units.now) }
{
    let mut ids = Vec::new(alloc);
    for unit in units {
        if unit.1.range.holds(date) {
            ids.push(unit.0)?;
        }
    }
    Ok(ids)
}

/// Units on a date.
pub(crate) fn unit_days(
    alloc: Global,
    units: &[UnitId],
    date: SettlementDate,
) -> Result<Vec<UnitDate>, AllocError>
    ensures { IfOk result (λ days. days.items ≡ map (on_date date) units.now) }
{
    units
        .iter()
        .map(|unit| UnitDate { unit: *unit, date })
        .collect(alloc)
}
