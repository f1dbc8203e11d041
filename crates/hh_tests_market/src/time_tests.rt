//! What no clause says and no program shows: days of a zone that no market has, and dates that no row has.

use hh_time::*;
use jiff::civil::Date;
use jiff::tz::TimeZone;
use std::test::Fail;

/// The number of the fault of a date's day in a zone, or 0.
fn fault_of_day(date: Date, zone: &TimeZone<'_>) -> u8 {
    match day_of(date, zone) {
        Ok(_) => 0,
        Err(fault) => fault.number(),
    }
}

/// Whether a date has this number, if it has one, and no other date has it.
fn has_number(date: Date, number: Result<i32, TimeFault>) -> bool {
    day_number(date) == number
        && match number {
            Ok(number) => date_at(number) == Ok(date),
            Err(_) => true,
        }
}

#[test]
fn odd_day(rt: HostRuntime) -> Result<(), Fail> {
    let zone = TimeZone::posix("AAA0BBB-2,M3.5.0/1,M10.5.0/3")?;
    for (day, fault) in [(31, TimeFault::OddDay.number()), (30, 0)] {
        assert_eq!(rt; fault_of_day(Date::new(2024, 3, day)?, &zone), fault);
    }
    Ok(())
}

#[test]
fn numbers_of_faults(rt: HostRuntime) {
    for (fault, number) in [
        (TimeFault::OutOfRange, 1),
        (TimeFault::OddDay, 2),
        (TimeFault::Memory, 3),
    ] {
        assert_eq!(rt; fault.number(), number);
    }
}

#[test]
fn ends_of_the_range(rt: HostRuntime) -> Result<(), Fail> {
    let zone = london();
    let outside = Err(TimeFault::OutOfRange);
    let cases = [
        (2000, 12, 31, 1, outside),
        (2001, 1, 1, 0, Ok(11_323)),
        (2099, 12, 31, 0, Ok(47_481)),
        (2100, 1, 1, 1, outside),
    ];
    for (year, month, day, fault, number) in cases {
        let date = Date::new(year, month, day)?;
        assert_eq!(rt; fault_of_day(date, &zone), fault);
        assert!(rt; has_number(date, number));
    }
    for number in [11_322, 47_482, -1] {
        assert!(rt; date_at(number).is_err());
    }
    Ok(())
}

/// The day of a date, if it has one.
fn day_on(date: Date, zone: &TimeZone<'_>) -> Option<Day> {
    day_of(date, zone).ok()
}

#[test]
fn the_last_day(rt: HostRuntime) -> Result<(), Fail> {
    let date = Date::new(2099, 12, 31)?;
    assert!(rt; day_on(date, &london()) == Day::of(SettlementDate::last(), &london()));
    Ok(())
}
