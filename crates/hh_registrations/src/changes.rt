//! What a row of units changes in what is registered of its unit.

ghost use Rattle.std.specs.Prelude.{◌≡◌};
ghost use Rattle.hh_registrations.specs.Registrations.{former_lead, widened};

use hh_rows::{LeadKey, LeadTerm, UnitRegistration};

/// What becomes of a unit's last registration when a row of the unit is accepted (profile).
#[derive(Clone, Copy, Debug, PartialEq, Eq)]
pub enum FormerLead {
    /// The unit had none.
    Absent,
    /// The row's registration takes its place.
    Replaced(LeadKey),
    /// It ends on the day before the row's first date.
    Ended(LeadKey, LeadTerm),
}

/// What a row of units changes in the registrations: the unit's last one, and the one that the row
/// begins (profile).
#[derive(Clone, Copy, Debug, PartialEq, Eq)]
pub struct LeadChange {
    /// What becomes of the unit's last registration.
    pub former: FormerLead,
    /// The registration that the row begins.
    pub key: LeadKey,
    pub term: LeadTerm,
}

/// What a row of units changes (profile).
#[derive(Clone, Copy, Debug, PartialEq, Eq)]
pub struct UnitChange {
    /// What is registered of the unit after the row.
    pub registration: UnitRegistration,
    /// What becomes of its registrations.
    pub lead: LeadChange,
}

/// What is registered of a unit after a row of it, by what was.
pub(crate) fn widened(known: Option<UnitRegistration>, new: UnitRegistration) -> UnitRegistration
    ensures { result ≡ widened known new }
{
    match known {
        Some(known) => UnitRegistration {
            range: new.range.begun_by(known.range.from()),
            ..new
        },
        None => new,
    }
}

/// What becomes of a unit's last registration, if it has one, when a row of the unit is accepted.
pub(crate) fn former_lead(last: Option<(LeadKey, LeadTerm)>, new: UnitRegistration) -> FormerLead
    ensures { result ≡ former_lead last new }
{
    let Some((key, term)) = last else {
        return FormerLead::Absent;
    };
    match key.from.last_before(new.range.from()) {
        Some(to) if term.lead != new.lead => FormerLead::Ended(key, LeadTerm { to, ..term }),
        _ => FormerLead::Replaced(key),
    }
}
