//! What is registered of units, with all their registrations.

ghost use Rattle.std.specs.Prelude.{◌≡◌, OnErr, OnOk};
ghost use Rattle.std.specs.FinMap.{find, put};
ghost use Rattle.hh_names.specs.Accounts.{bytes_cmp};
ghost use Rattle.hh_registrations.specs.Registrations.{last_registration, no_registrations, registered_lead_on, unit_change, with_unit_row};

use crate::changes::{UnitChange, widened};
use crate::leads::LeadTable;
use hh_names::{Account, UnitId};
use hh_rows::{LeadKey, LeadTerm, UnitRegistration, UnitRow};
use hh_tables::ListTable;
use hh_time::SettlementDate;
use std::alloc::{AllocError, Global};
use std::marker::Model;

/// What is registered of units: of each unit its latest lead account, its mark and its whole range, and
/// from which date to which each account has led it (profile).
#[derive(Drop)]
pub struct Registrations {
    /// A list, so that a unit is found behind one that was asked for before. A unit that is put in the
    /// middle moves all behind it. That is cheap enough only because there are at most 2,000.
    units: ListTable<UnitId, UnitRegistration>,
    leads: LeadTable,
}

impl Model for Registrations {
    ghost use Rattle.hh_registrations.specs.Registrations.{RegistrationsView};

    ghost Value = { RegistrationsView };

    ghost view = { λ r. record { units = r.units; leads = r.leads } };
}

impl Registrations {
    /// No unit is registered. Takes no memory.
    pub fn new(alloc: Global) -> Registrations
        ensures { result ≡ no_registrations }
    {
        Registrations {
            units: ListTable::new(alloc),
            leads: LeadTable::new(alloc),
        }
    }

    /// What these tables register of units.
    pub fn of(units: ListTable<UnitId, UnitRegistration>, leads: LeadTable) -> Registrations
        ensures { result ≡ record { units = units; leads = leads } }
    {
        Registrations { units, leads }
    }

    /// The tables of units and of their registrations.
    pub fn into_tables(self) -> (ListTable<UnitId, UnitRegistration>, LeadTable)
        ensures { result ≡ (self.units, self.leads) }
    {
        (self.units, self.leads)
    }

    /// What is registered of a unit, if it is registered.
    pub fn unit(&self, unit: &UnitId) -> Option<UnitRegistration>
        ensures { result ≡ find bytes_cmp unit.now self.now.units }
    {
        self.units.get(unit)
    }

    /// What is registered of each unit.
    pub fn units(&self) -> &ListTable<UnitId, UnitRegistration>
        ensures { result.now ≡ self.now.units }
    {
        &self.units
    }

    /// The last registration of a unit, if it has one (profile).
    pub fn last(&self, unit: &UnitId) -> Option<(LeadKey, LeadTerm)>
        ensures { result ≡ last_registration self.now.leads unit.now }
    {
        self.leads.last(unit)
    }

    /// The account that leads a unit on a date, if one does (profile).
    pub fn registered_lead_on(&self, unit: &UnitId, date: SettlementDate) -> Option<Account>
        ensures { result ≡ registered_lead_on self.now unit.now date }
    {
        self.leads.lead_on(unit, date)
    }

    /// What a row of units changes (profile).
    pub fn change_of(&self, row: &UnitRow) -> UnitChange
        ensures { result ≡ unit_change self.now row.now }
    {
        UnitChange {
            registration: widened(self.units.get(&row.unit), row.registration),
            lead: self.leads.change_of(row),
        }
    }

    /// Makes the change of a row of units (profile). `Err` only if memory is refused: all is then as it
    /// was.
    pub fn put(&mut self, row: &UnitRow) -> Result<(), AllocError>
        ensures ok { OnOk result (self.new ≡ with_unit_row row.now self.old) }
        ensures err { OnErr result (self.new ≡ self.old) }
    {
        let change = self.change_of(row);
        let before = self.units.get(&row.unit);
        self.units.put_row(row.unit, change.registration)?;
        if let Err(refused) = self.leads.put(row) {
            self.units.put_back(&row.unit, before);
            return Err(refused);
        }
        Ok(())
    }

    /// Puts what is registered of a unit, in the place of what was. Changes none of its registrations.
    /// `Err` only if memory is refused: all is then as it was.
    pub fn hold_unit(
        &mut self,
        unit: UnitId,
        registration: UnitRegistration,
    ) -> Result<(), AllocError>
        ensures ok { OnOk result (self.new
            ≡ record self.old { units = put bytes_cmp unit registration self.old.units }) }
        ensures err { OnErr result (self.new ≡ self.old) }
    {
        self.units.put_row(unit, registration)
    }

    /// Puts these registrations in the place of all that were.
    pub fn hold_leads(&mut self, leads: LeadTable)
        ensures { self.new ≡ record self.old { leads = leads } }
    {
        self.leads = leads;
    }
}
