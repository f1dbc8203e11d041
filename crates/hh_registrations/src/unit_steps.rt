//! What rows of files change in the tables of units and of registrations.

ghost use Rattle.std.specs.Prelude.{◌≡◌, ◌++◌, IfOk, OnOk};
ghost use Rattle.hh_registrations.specs.Registrations.{succession_ranges};
ghost use Rattle.hh_registrations.specs.UnitSteps.{former_steps, steps_of, steps_of_rows};
ghost use Rattle.hh_registrations.specs.steps.Changes.{AddsRow};

use crate::changes::{FormerLead, UnitChange};
use crate::registrations::Registrations;
use hh_names::UnitId;
use hh_rows::{DateRange, LeadKey, LeadTerm, Row, UnitRegistration, UnitRow};
use std::alloc::{AllocError, Global};

/// A step in the tables of units and of registrations (profile).
#[derive(Clone, Copy, Debug, PartialEq, Eq)]
pub enum UnitStep {
    /// What is registered of the unit is put, and replaces what was.
    Unit(UnitId, UnitRegistration),
    /// The registration is put, and replaces the one of its key.
    Put(LeadKey, LeadTerm),
    /// The registration is taken out.
    Removed(LeadKey),
}

/// What rows change in the tables of units and of registrations (profile).
#[derive(Drop)]
pub struct UnitChanges {
    /// The steps, in their order.
    pub steps: Vec<UnitStep>,
    /// The dates of the successions.
    pub successions: Vec<DateRange>,
}

impl Registrations {
    /// What rows change, one after the other. Rows of other kinds than units change nothing. `Err` only if
    /// memory is refused.
    pub fn changes_of(self, alloc: Global, rows: &[Row]) -> Result<UnitChanges, AllocError>
        ensures steps { IfOk result (λ changes. changes.steps.items ≡ steps_of_rows rows.now self) }
        ensures successions { IfOk result (λ changes.
            changes.successions.items ≡ succession_ranges rows.now self.leads) }
    {
        let mut held = self;
        let mut changes = UnitChanges {
            steps: Vec::new(alloc),
            successions: Vec::new(alloc),
        };
        for row in rows {
            if let Row::Unit(row) = row {
                changes.add(&held, row)?;
                held.put(row)?;
            }
        }
        Ok(changes)
    }
}

impl UnitChanges {
    /// Adds what a row changes in what is held.
    fn add(&mut self, held: &Registrations, row: &UnitRow) -> Result<(), AllocError>
        ensures { OnOk result (AddsRow held.now row.now self.old self.new) }
    {
        if let Some((_, term)) = held.last(&row.unit) {
            if term.lead != row.registration.lead {
                self.successions.push(row.registration.range)?;
            }
        }
        push_steps(&mut self.steps, row.unit, &held.change_of(row))?;
        Ok(())
    }
}

/// Adds the steps of a change of a unit.
fn push_steps(
    steps: &mut Vec<UnitStep>,
    unit: UnitId,
    change: &UnitChange,
) -> Result<(), AllocError>
    ensures { OnOk result (steps.new.items ≡ steps.old.items ++ steps_of unit change.now) }
{
    push_former(steps, &change.lead.former)?;
    steps.push(UnitStep::Put(change.lead.key, change.lead.term))?;
    steps.push(UnitStep::Unit(unit, change.registration))?;
    Ok(())
}

/// Adds what becomes of the former registration.
fn push_former(steps: &mut Vec<UnitStep>, former: &FormerLead) -> Result<(), AllocError>
    ensures { OnOk result (steps.new.items ≡ steps.old.items ++ former_steps former.now) }
{
    match former {
        FormerLead::Absent => {}
        FormerLead::Replaced(key) => steps.push(UnitStep::Removed(*key))?,
        FormerLead::Ended(key, term) => steps.push(UnitStep::Put(*key, *term))?,
    }
    Ok(())
}
