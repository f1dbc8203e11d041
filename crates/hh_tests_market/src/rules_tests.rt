//! What no clause says and no program shows: rows of a day in a zone that no market has.

use hh_names::{AccessKey, Reading};
use hh_num::{Kwh, Price, Tlm};
use hh_rows::{DateRange, LeadMinutes, MeterRow, PartyRow, PriceRow, UnitRow};
use hh_rules::*;
use hh_time::SettlementDate;
use jiff::tz::TimeZone;
use std::test::Fail;

/// The moment at which rows come, 2024-06-29T22:26:40Z.
const MOMENT: i64 = 1_719_700_000;

/// All dates from 2024-01-01.
fn range() -> Option<DateRange> {
    DateRange::new(SettlementDate::read(b"2024-01-01")?, SettlementDate::last())
}

fn party_row() -> Option<Row> {
    Some(Row::Party(PartyRow {
        party: PartyId::read(b"GENCO")?,
        registration: PartyRegistration {
            range: range()?,
            key: AccessKey::read(b"genco0001")?,
        },
    }))
}

fn unit_row() -> Option<Row> {
    Some(Row::Unit(UnitRow {
        unit: UnitId::read(b"G1")?,
        registration: UnitRegistration {
            lead: Account::read(b"GENCO-P")?,
            interconnector: false,
            range: range()?,
        },
    }))
}

/// Period 1 of 2024-03-31.
fn first_period() -> Option<SettlementPeriod> {
    Some(SettlementPeriod {
        date: SettlementDate::read(b"2024-03-31")?,
        period: PeriodNumber::new(1)?,
    })
}

fn meter_row() -> Option<Row> {
    Some(Row::Meter(MeterRow {
        key: UnitPeriod {
            unit: UnitId::read(b"G1")?,
            at: first_period()?,
        },
        reading: Reading {
            metered: Kwh::new(1000)?,
            tlm: Tlm::new(10_000_000)?,
            balancing: Kwh::new(0)?,
        },
    }))
}

fn price_row() -> Option<Row> {
    Some(Row::Price(PriceRow {
        at: first_period()?,
        price: Price::new(0)?,
    }))
}

/// The number of the refusal of a row, or 0 if it is accepted. None if there is no such row, or if
/// `check_row` answers otherwise than `apply_row`.
fn outcome(register: &mut Register, zone: &TimeZone<'_>, row: Option<Row>) -> Option<u8> {
    let row = row?;
    let judged = match register.check_row(zone, MOMENT, &row) {
        Ok(()) => 0,
        Err(fault) => fault.refusal.number(),
    };
    let done = match register.apply_row(zone, MOMENT, row) {
        Ok(_) => 0,
        Err(fault) => fault.refusal.number(),
    };
    if judged == done { Some(done) } else { None }
}

/// Whether rows of each kind of table become this in a zone: registered, or refused because the date has no
/// such period.
fn become_right(register: &mut Register, zone: &TimeZone<'_>) -> bool {
    outcome(register, zone, party_row()) == Some(0)
        && outcome(register, zone, unit_row()) == Some(0)
        && outcome(register, zone, meter_row()) == Some(34)
        && outcome(register, zone, price_row()) == Some(34)
}

#[test]
fn day_of_an_odd_zone(rt: HostRuntime) -> Result<(), Fail> {
    let zone = TimeZone::posix("AAA0BBB-2,M3.5.0/1,M10.5.0/3")?;
    let mut register = Register::new(rt.alloc(), LeadMinutes::default());
    assert!(rt; become_right(&mut register, &zone));
    Ok(())
}
