//! The first registrations of units, which their rows of version 1 make.

ghost use Rattle.std.specs.Prelude.{◌≡◌, IfOk};
ghost use Rattle.hh_registrations.specs.Registrations.{lead_of, one_lead_each};

use hh_names::UnitId;
use hh_rows::{LeadKey, LeadTerm, UnitRegistration};
use std::alloc::{AllocError, Global};

/// One registration for each unit, which begins and ends with it and has its lead account.
pub(crate) fn leads_of_units(
    alloc: Global,
    units: &[(UnitId, UnitRegistration)],
) -> Result<Vec<(LeadKey, LeadTerm)>, AllocError>
    ensures { IfOk result (λ leads. leads.items ≡ one_lead_each units.now) }
{
    units.iter().map(|unit| lead_of(unit)).collect(alloc)
}

/// The registration that a unit's own row makes.
fn lead_of(unit: &(UnitId, UnitRegistration)) -> (LeadKey, LeadTerm)
    ensures { result ≡ lead_of unit.now.0 unit.now.1 }
{
    let (from, to) = unit.1.range.ends();
    (
        LeadKey { unit: unit.0, from },
        LeadTerm {
            lead: unit.1.lead,
            to,
        },
    )
}
