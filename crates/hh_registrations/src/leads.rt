//! The registrations of all units.

ghost use Rattle.std.specs.Prelude.{◌≡◌, ◌≤◌, [], false, IfOk, IfSome, IsSome, IsTrue, OnErr, OnOk, option_map};
ghost use Rattle.std.specs.FinMap.{put};
ghost use Rattle.hh_tables.specs.Tables.{IsTable, put_all};
ghost use Rattle.hh_time.specs.Days.{last_date};
ghost use Rattle.hh_rows.specs.Keys.{lead_key_cmp};
ghost use Rattle.hh_registrations.specs.Registrations.{BeginByLastDate, last_begun, last_registration, lead_change, leads_after, leads_with, registration_on};

use crate::changes::{FormerLead, LeadChange, former_lead};
use hh_names::{Account, UnitId};
use hh_rows::{LeadKey, LeadTerm, UnitRow};
use hh_tables::TreeTable;
use hh_time::SettlementDate;
use std::alloc::{AllocError, Global};
use std::marker::Model;

/// The registrations of all units: from which date to which each account has led a unit (profile).
#[derive(Drop)]
pub struct LeadTable {
    /// A tree, because a unit may have any number of registrations: a row moves no others.
    rows: TreeTable<LeadKey, LeadTerm>,
}

impl Model for LeadTable {
    ghost use Rattle.hh_registrations.specs.Registrations.{Leads};
    ghost use Rattle.hh_registrations.specs.steps.Dates.{AreInOrder};

    ghost Value = { Leads };

    ghost view = { λ t. t.rows };

    ghost invariant = { λ t. AreInOrder t.rows };
}

impl LeadTable {
    /// No registrations. Takes no memory.
    pub fn new(alloc: Global) -> LeadTable
        ensures { result ≡ [] }
    {
        LeadTable {
            rows: TreeTable::new(alloc),
        }
    }

    /// The same registrations once more. `Err` only if memory is refused.
    pub fn copied(&self, alloc: Global) -> Result<LeadTable, AllocError>
        ensures { IfOk result (λ copy. copy ≡ self.now) }
    {
        let rows = self.rows.rows(alloc)?;
        let mut copy = TreeTable::new(alloc);
        for row in &rows {
            copy.put(row.0, row.1)?;
        }
        Ok(LeadTable { rows: copy })
    }

    /// These registrations. Of several with one key the last counts. `None` if one begins after the last
    /// accepted date. `Err` only if memory is refused.
    pub fn of_rows(
        alloc: Global,
        rows: &[(LeadKey, LeadTerm)],
    ) -> Result<Option<LeadTable>, AllocError>
        ensures rows { IfOk result
            (λ table. IfSome table (λ t. t ≡ put_all lead_key_cmp rows.now [])) }
        ensures accepted { BeginByLastDate rows.now → IfOk result IsSome }
    {
        let mut table = LeadTable::new(alloc);
        for row in rows {
            if !table.put_row(row)? {
                return Ok(None);
            }
        }
        Ok(Some(table))
    }

    /// Puts a registration, replacing the one of its key. `false` if it begins after the last accepted date:
    /// the registrations are then as they were. `Err` only if memory is refused.
    fn put_row(&mut self, row: &(LeadKey, LeadTerm)) -> Result<bool, AllocError>
        ensures put { IfOk result (λ is_put. IsTrue is_put
            → self.new ≡ put lead_key_cmp row.now.0 row.now.1 self.old) }
        ensures accepted { row.now.0.from ≤ last_date → IfOk result IsTrue }
        ensures left { IfOk result (λ is_put. is_put ≡ false → self.new ≡ self.old) }
    {
        if row.0.from <= SettlementDate::last() {
            self.rows.put(row.0, row.1)?;
            Ok(true)
        } else {
            Ok(false)
        }
    }

    /// The account that leads a unit on a date, if one does (profile).
    pub fn lead_on(&self, unit: &UnitId, date: SettlementDate) -> Option<Account>
        ensures { result ≡ option_map (λ e. e.1.lead) (registration_on self.now unit.now date) }
    {
        let (_, term) = last_begun(&self.rows, unit, date)?;
        if date <= term.to {
            Some(term.lead)
        } else {
            None
        }
    }

    /// The last registration of a unit, if it has one (profile).
    pub fn last(&self, unit: &UnitId) -> Option<(LeadKey, LeadTerm)>
        ensures last { result ≡ last_registration self.now unit.now }
        ensures rising { IsTable lead_key_cmp self.now }
    {
        last_begun(&self.rows, unit, SettlementDate::last())
    }

    /// What a row of units changes in the registrations (profile).
    pub fn change_of(&self, row: &UnitRow) -> LeadChange
        ensures change { result ≡ lead_change self.now row.now }
        ensures accepted { result.key.from ≤ last_date }
        ensures rising { IsTable lead_key_cmp self.now }
    {
        let (from, to) = row.registration.range.ends();
        LeadChange {
            former: former_lead(self.last(&row.unit), row.registration),
            key: LeadKey {
                unit: row.unit,
                from,
            },
            term: LeadTerm {
                lead: row.registration.lead,
                to,
            },
        }
    }

    /// Makes the change of a row of units (profile). `Err` only if memory is refused: all is then as it
    /// was.
    pub fn put(&mut self, row: &UnitRow) -> Result<(), AllocError>
        ensures ok { OnOk result (self.new ≡ leads_after row.now self.old) }
        ensures err { OnErr result (self.new ≡ self.old) }
    {
        let change = self.change_of(row);
        put_lead(&mut self.rows, &change)
    }
}

/// The last of a unit's registrations that begins on a date or before, if there is one.
fn last_begun(
    leads: &TreeTable<LeadKey, LeadTerm>,
    unit: &UnitId,
    date: SettlementDate,
) -> Option<(LeadKey, LeadTerm)>
    ensures value { result ≡ last_begun leads.now unit.now date }
    ensures rising { IsTable lead_key_cmp leads.now }
{
    let up_to = LeadKey {
        unit: *unit,
        from: date,
    };
    let (key, term) = leads.last_up_to(&up_to)?;
    if key.unit == *unit {
        Some((key, term))
    } else {
        None
    }
}

/// Makes a change of registrations. If memory is refused, they are left as they were.
fn put_lead(leads: &mut TreeTable<LeadKey, LeadTerm>, change: &LeadChange) -> Result<(), AllocError>
    requires rising { IsTable lead_key_cmp leads.old }
    ensures ok { OnOk result (leads.new ≡ leads_with change.now leads.old) }
    ensures err { OnErr result (leads.new ≡ leads.old) }
{
    let lead = (change.key, change.term);
    match change.former {
        FormerLead::Absent => leads.put(lead.0, lead.1),
        FormerLead::Ended(key, term) => leads.put_two((key, term), lead),
        FormerLead::Replaced(key) => {
            leads.put(lead.0, lead.1)?;
            if key != change.key {
                leads.remove(&key);
            }
            Ok(())
        }
    }
}
