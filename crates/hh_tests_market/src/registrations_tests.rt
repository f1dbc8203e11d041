//! What no clause says: that with ample memory rows of units become registrations, of which one leads the
//! unit on each of its dates.

use hh_names::{Account, UnitId};
use hh_registrations::Registrations;
use hh_rows::{DateRange, Row, UnitRegistration, UnitRow};
use hh_time::SettlementDate;
use std::alloc::Global;

/// A row of the unit S1 that gives it a lead account from a date on.
fn row_from(lead: &[u8], from: &[u8]) -> Option<UnitRow> {
    let range = DateRange::new(SettlementDate::read(from)?, SettlementDate::last())?;
    Some(UnitRow {
        unit: UnitId::read(b"S1")?,
        registration: UnitRegistration {
            lead: Account::read(lead)?,
            interconnector: false,
            range,
        },
    })
}

/// A lead account of S1 and the date from which on a row gives it.
type Lead = (&'static [u8], &'static [u8]);

/// Registers rows of S1 with these lead accounts and first dates. Nothing if memory is refused, or if these
/// are no rows.
fn register(registrations: &mut Registrations, leads: &[Lead]) -> Option<()> {
    for (lead, from) in leads {
        let row = row_from(lead, from)?;
        registrations.put(&row).ok()?;
    }
    Some(())
}

/// The account that leads S1 on a date, if there is one.
fn lead_by(registrations: &Registrations, date: &[u8]) -> Option<Account> {
    registrations.registered_lead_on(&UnitId::read(b"S1")?, SettlementDate::read(date)?)
}

/// Whether the account of a text, or none, leads S1 on a date after rows.
fn leads(alloc: Global, rows: &[Lead], date: &[u8], lead: &[u8]) -> bool {
    let mut registrations = Registrations::new(alloc);
    register(&mut registrations, rows).is_some()
        && lead_by(&registrations, date) == Account::read(lead)
}

const FIRST: Lead = (b"SUPCO-C", b"2024-01-01");

const SECOND: Lead = (b"NEWCO-C", b"2024-07-01");

const WIDER: Lead = (b"SUPCO-C", b"2023-07-01");

/// Rows of S1, a date, and the text of the account that leads S1 then, or an empty one.
const CASES: [(&[Lead], &[u8], &[u8]); 8] = [
    (&[FIRST], b"2023-12-31", b""),
    (&[FIRST], b"2024-01-01", b"SUPCO-C"),
    (&[FIRST], b"2099-12-31", b"SUPCO-C"),
    (&[FIRST, SECOND], b"2024-06-30", b"SUPCO-C"),
    (&[FIRST, SECOND], b"2024-07-01", b"NEWCO-C"),
    (&[FIRST, SECOND], b"2023-12-31", b""),
    (&[FIRST, WIDER], b"2023-12-31", b"SUPCO-C"),
    (&[FIRST, WIDER, SECOND], b"2024-06-30", b"SUPCO-C"),
];

#[test]
fn who_leads_a_unit_on_a_date(rt: HostRuntime) {
    for (rows, date, lead) in CASES {
        assert!(rt; leads(rt.alloc(), rows, date, lead));
    }
}

/// How many steps in the tables rows of S1 make, and how many of the rows are successions.
fn changes(alloc: Global, leads: &[Lead]) -> Option<(usize, usize)> {
    let mut rows = Vec::new(alloc);
    for (lead, from) in leads {
        rows.push(Row::Unit(row_from(lead, from)?)).ok()?;
    }
    let registrations = Registrations::new(alloc);
    let changes = registrations.changes_of(alloc, &rows).ok()?;
    Some((changes.steps.len(), changes.successions.len()))
}

#[test]
fn what_rows_change_in_the_tables(rt: HostRuntime) {
    assert!(rt; changes(rt.alloc(), &[FIRST]) == Some((2, 0)));
    assert!(rt; changes(rt.alloc(), &[FIRST, WIDER]) == Some((5, 0)));
    assert!(rt; changes(rt.alloc(), &[FIRST, SECOND]) == Some((5, 1)));
}
