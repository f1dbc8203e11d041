//! What no clause says and no program shows: the order of keys, and the refusal that no rule gives.

use hh_names::{PeriodNumber, Refusal, UnitId};
use hh_rows::*;
use hh_time::SettlementDate;

/// A Settlement Period, from its day number and its number.
fn period(day: u16, number: u8) -> Option<SettlementPeriod> {
    Some(SettlementPeriod {
        date: SettlementDate::new(day)?,
        period: PeriodNumber::new(number)?,
    })
}

/// A unit in a Settlement Period.
fn unit_period(unit: &[u8], day: u16, number: u8) -> Option<UnitPeriod> {
    Some(UnitPeriod {
        unit: UnitId::read(unit)?,
        at: period(day, number)?,
    })
}

/// Settlement Periods in order.
const PERIODS: [(u16, u8); 3] = [(19_723, 1), (19_723, 50), (19_724, 1)];

/// Keys of readings in order.
const KEYS: [(&[u8], u16, u8); 4] = [
    (b"G1", 19_723, 2),
    (b"G1", 19_724, 1),
    (b"G10", 19_723, 1),
    (b"S1", 19_723, 1),
];

/// Whether Settlement Periods are in the order of their places.
fn periods_have_an_order(at: usize, beside: usize) -> bool {
    let (day, number) = PERIODS[at % 3];
    let (other, other_number) = PERIODS[beside % 3];
    period(day, number).cmp(&period(other, other_number)) == (at % 3).cmp(&(beside % 3))
}

/// Whether there are keys at places, in the order of their places.
fn keys_have_the_order(at: usize, beside: usize) -> bool {
    let (unit, day, number) = KEYS[at % 4];
    let (other, other_day, other_number) = KEYS[beside % 4];
    let key = unit_period(unit, day, number);
    key.is_some()
        && key.cmp(&unit_period(other, other_day, other_number)) == (at % 4).cmp(&(beside % 4))
}

#[test]
fn keys_have_an_order(rt: HostRuntime) {
    for at in 0..4 {
        for beside in 0..4 {
            assert!(rt; periods_have_an_order(at, beside), "{at} and {beside}");
            assert!(rt; keys_have_the_order(at, beside), "{at} and {beside}");
        }
    }
}

#[test]
fn a_refusal_that_no_rule_gives(rt: HostRuntime) {
    assert_eq!(rt; Refusal::LeadIsSubsidiary.number(), 41);
    assert_eq!(rt; Refusal::LeadIsSubsidiary.name(), "LeadIsSubsidiary");
}
