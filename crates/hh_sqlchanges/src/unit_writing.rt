//! Writing what rows of units change in the tables of units and of registrations.

ghost use Rattle.std.specs.Prelude.{◌∷◌, []};
ghost use Rattle.hh_sqlrows.specs.Reads.{MakesOffice, WritesInside};
ghost use Rattle.hh_sqlchanges.specs.steps.Becoming.{Becomes};
ghost use Rattle.hh_sqlchanges.specs.steps.FileRows.{with_unit_steps};

use hh_registrations::UnitStep;
use hh_rows::LeadKey;
use hh_sqlrows::tables::{Leads, Units};
use hh_sqlrows::{RowFault, remove_under, replace};
use sqlite::{Alter, Transaction};
use std::alloc::Global;

/// Makes steps in the tables of units and of registrations, one after the other.
pub(crate) fn write_unit_steps<S: Alter>(
    tx: &mut Transaction<'_, S>,
    alloc: Global,
    steps: &[UnitStep],
) -> Result<(), RowFault>
    ensures frame { WritesInside S.Store tx.old tx.new result }
    ensures writes { MakesOffice S.Store tx.old tx.new result
        (Becomes (with_unit_steps steps.now)) }
{
    'steps: for step in steps {
        write_unit_step(tx, alloc, step)?;
    }
    Ok(())
}

/// Makes a step in the table of units or in that of registrations.
fn write_unit_step<S: Alter>(
    tx: &mut Transaction<'_, S>,
    alloc: Global,
    step: &UnitStep,
) -> Result<(), RowFault>
    ensures frame { WritesInside S.Store tx.old tx.new result }
    ensures writes { MakesOffice S.Store tx.old tx.new result
        (Becomes (with_unit_steps (step.now ∷ []))) }
{
    match step {
        UnitStep::Unit(unit, registration) => replace::<Units, S>(tx, alloc, unit, registration),
        UnitStep::Put(key, term) => replace::<Leads, S>(tx, alloc, key, term),
        UnitStep::Removed(key) => remove_under::<Leads, LeadKey, S>(tx, alloc, key),
    }
}
