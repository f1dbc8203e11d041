//! The units whose reallocations rows are judged by.

ghost use Rattle.std.specs.Prelude.{◌≡◌, ◌||◌, All, IfOk, OnOk};
ghost use Rattle.std.specs.BTreeSet.{contains};
ghost use Rattle.hh_names.specs.Accounts.{bytes_cmp};
ghost use Rattle.hh_rows.specs.Keys.{unit_period_cmp};
ghost use Rattle.hh_kept_rows.specs.steps.Parts.{IsNamedIn, KeepsNames};

use hh_names::UnitId;
use hh_rows::{Row, UnitPeriod};
use std::alloc::{AllocError, Global};
use std::collections::BTreeSet;

/// The units whose reallocations rows are judged by.
#[derive(Drop)]
pub(crate) struct NamedUnits {
    /// By rows of reallocations: units in Settlement Periods.
    periods: BTreeSet<UnitPeriod>,
    /// By rows of units: units in all Settlement Periods.
    units: BTreeSet<UnitId>,
}

impl NamedUnits {
    /// The units that these rows name. `Err` only if memory is refused.
    pub(crate) fn of(alloc: Global, rows: &[Row]) -> Result<NamedUnits, AllocError>
        ensures { IfOk result (λ named. All (IsNamedIn named) rows.now) }
    {
        let mut named = NamedUnits {
            periods: BTreeSet::new(alloc),
            units: BTreeSet::new(alloc),
        };
        for row in rows {
            named.insert(row)?;
        }
        Ok(named)
    }

    /// Whether a unit is named in a Settlement Period, or in all.
    pub(crate) fn contains(&self, at: &UnitPeriod) -> bool
        ensures { result ≡ (contains unit_period_cmp self.now.periods at.now
            || contains bytes_cmp self.now.units at.now.unit) }
    {
        self.periods.contains(at) || self.units.contains(&at.unit)
    }

    /// Puts what a row names.
    fn insert(&mut self, row: &Row) -> Result<(), AllocError>
        ensures named { OnOk result (IsNamedIn self.new row.now) }
        ensures kept { OnOk result (KeepsNames self.old self.new) }
    {
        match row {
            Row::Reallocation(row) => {
                self.periods.insert(row.key.unit_period)?;
            }
            Row::Unit(row) => {
                self.units.insert(row.unit)?;
            }
            _ => {}
        }
        Ok(())
    }
}
