//! The dates of Settlement Days.

ghost use Rattle.std.specs.Prelude.{◌≡◌, ◌<◌, ◌≤◌, ◌-◌, ◌↔◌, SomeIff, IfSome, IsSome, IsOk, IfOk, IfErr, IsTrue, pos};
ghost use Rattle.jiff.specs.Words.{epoch_day, IsBetween};
ghost use Rattle.hh_time.specs.Calendar.{date_on};
ghost use Rattle.hh_time.specs.Days.{is_accepted, last_date};
ghost use Rattle.hh_time.specs.Zone.{IsAccepted};

use crate::fault::TimeFault;
use jiff::civil::Date;
use std::marker::Model;

/// Days from 1970-01-01 to 2001-01-01.
const FIRST: u16 = 11_323;

/// Days from 1970-01-01 to 2099-12-31.
const LAST: u16 = 47_481;

/// A date from 2001-01-01 to 2099-12-31 (profile). Contracts see its days since 1970-01-01.
#[derive(Clone, Copy, Debug, PartialEq, Eq, PartialOrd, Ord)]
pub struct SettlementDate {
    days: u16,
}

impl Model for SettlementDate {
    ghost use Rattle.std.specs.Prelude.{ℕ, ◌≤◌};

    ghost Value = { ℕ };

    ghost view = { λ d. d.days };

    ghost invariant = { λ d. (11_323 ≤ d.days) × (d.days ≤ 47_481) };

    ghost inverse = { λ n. record { days = n } };
}

impl SettlementDate {
    /// The date `days` days after 1970-01-01, if `days` is 11,323 to 47,481.
    pub fn new(days: u16) -> Option<SettlementDate>
        ensures { SomeIff result (IsTrue (is_accepted days)) days }
    {
        if FIRST <= days && days <= LAST {
            Some(SettlementDate { days })
        } else {
            None
        }
    }

    /// The last date, 2099-12-31.
    pub fn last() -> SettlementDate
        ensures { result ≡ last_date }
    {
        SettlementDate { days: LAST }
    }

    /// The day before `next`, if that isn't before this date.
    pub fn last_before(self, next: SettlementDate) -> Option<SettlementDate>
        ensures { SomeIff result (self < next) (next - 1) }
    {
        if self < next {
            Some(SettlementDate {
                days: next.days - 1,
            })
        } else {
            None
        }
    }

    /// Days since 1970-01-01.
    pub fn number(self) -> u16
        ensures value { result ≡ self }
        ensures range { (11_323 ≤ self) × (self ≤ 47_481) }
    {
        self.days
    }

    /// The Settlement Day's date for this date of the calendar, if it is accepted.
    pub fn of_date(date: Date) -> Option<SettlementDate>
        ensures number { IfSome result (λ d. epoch_day date ≡ pos d) }
        ensures accepted { IsSome result ↔ IsAccepted date }
    {
        SettlementDate::of_number(date.to_plain().to_unix_epoch_day())
    }

    /// The date `number` days after 1970-01-01, if it is accepted.
    fn of_number(number: i32) -> Option<SettlementDate>
        ensures number { IfSome result (λ d. pos d ≡ number) }
        ensures accepted { IsSome result ↔ IsBetween (pos 11_323) (pos 47_481) number }
    {
        SettlementDate::new(u16::try_from(number).ok()?)
    }

    /// The date in the calendar.
    pub fn date(self) -> Date
        ensures value { result ≡ date_on self }
        ensures number { epoch_day result ≡ pos self }
        ensures accepted { IsAccepted result }
    {
        calendar_date(self.number())
    }
}

/// The date `days` days after 1970-01-01.
pub(crate) fn calendar_date(days: u16) -> Date
    ensures value { result ≡ date_on days }
    ensures number { epoch_day result ≡ pos days }
{
    match jiff_core::civil::Date::from_unix_epoch_day(i64::from(days)) {
        Ok(plain) => Date::from_plain(plain),
        Err(_) => unreachable!(),
    }
}

/// Days since 1970-01-01 of an accepted date, which is from 2001-01-01 to 2099-12-31. `OutOfRange`
/// for any other (profile).
pub fn day_number(date: Date) -> Result<i32, TimeFault>
    ensures number { IfOk result (λ n. n ≡ epoch_day date) }
    ensures accepted { IsOk result ↔ IsAccepted date }
    ensures fault { IfErr result (λ fault. fault ≡ TimeFault.OutOfRange) }
{
    let date = SettlementDate::of_date(date).ok_or(TimeFault::OutOfRange)?;
    Ok(i32::from(date.number()))
}

/// The accepted date `number` days after 1970-01-01. `OutOfRange` if `number` is not 11,323 to
/// 47,481 (profile).
pub fn date_at(number: i32) -> Result<Date, TimeFault>
    ensures date { IfOk result (λ date. IsAccepted date × (epoch_day date ≡ number)) }
    ensures accepted { IsOk result ↔ IsBetween (pos 11_323) (pos 47_481) number }
    ensures fault { IfErr result (λ fault. fault ≡ TimeFault.OutOfRange) }
{
    let date = SettlementDate::of_number(number).ok_or(TimeFault::OutOfRange)?;
    Ok(date.date())
}
