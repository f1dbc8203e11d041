//! Settlement Days, their periods and deadlines.

ghost use Rattle.std.specs.Prelude.{◌≡◌, ◌≢◌, ◌↔◌, ◌+◌, ◌*◌, ◌-◌, ◌≤◌, ◌&&◌, nat_le, int_le, pos, ◌+ℤ◌, ◌-ℤ◌, Some, None, Err, IfOk, IsErrOf, IfSome, IfNone, IsTrue, unsigned_abs};
ghost use Rattle.jiff.specs.Words.{epoch_day, plain_zone, IsBetween};
ghost use Rattle.hh_time.specs.Days.{Midnights, begins, count_of, has_period, half_hours, is_over};
ghost use Rattle.hh_time.specs.steps.Days.{is_count};
ghost use Rattle.hh_time.specs.Days as words;
ghost use Rattle.hh_time.specs.Zone.{IsAccepted, count_in, midnight_in};

use crate::date::SettlementDate;
use crate::fault::TimeFault;
use crate::zone::{midnight, midnight_on};
use jiff::civil::Date;
use jiff::tz::TimeZone;

/// A Settlement Day: from one local midnight to the next.
#[derive(Clone, Copy, Debug, PartialEq, Eq)]
pub struct Day {
    pub date: SettlementDate,
    /// The instant of its local midnight, in seconds since 1970-01-01T00:00:00Z.
    pub start: i64,
    /// How many periods it has: 46, 48 or 50.
    pub count: u8,
    pub ghost start_in: { IsBetween (pos 0) (pos 5_000_000_000) start },
    pub ghost count_in: { IsTrue (is_count count) },
}

impl Day {
    /// The Settlement Day of a date in a zone; none if it doesn't have 46, 48 or 50 half hours (profile).
    pub fn of(date: SettlementDate, zone: &TimeZone<'_>) -> Option<Day>
        ensures date { IfSome result (λ day. day.date ≡ date) }
        ensures start { IfSome result (λ day. day.start ≡ midnight_in (plain_zone zone.now) date) }
        ensures count { IfSome result (λ day.
            count_in (plain_zone zone.now) date ≡ Some day.count) }
        ensures odd { IfNone result (count_in (plain_zone zone.now) date ≡ None) }
    {
        let start = midnight(date, zone);
        let end = midnight_on(date.number() + 1, zone);
        let count = half_hours(end - start)?;
        Some(Day { date, start, count })
    }

    /// Whether the day has the period of that number. Periods are numbered from 1.
    pub fn has_period(&self, period: u8) -> bool
        ensures value { result ≡ (nat_le 1 period && nat_le period self.now.count) }
        ensures has { (midnight : Midnights) → count_of midnight self.now.date ≡ Some self.now.count
            → result ≡ has_period midnight self.now.date period }
    {
        1 <= period && period <= self.count
    }

    /// The instant at which the day ends, in seconds since 1970-01-01T00:00:00Z: the local midnight of
    /// the next date (profile).
    pub fn end(&self) -> i64
        ensures value { result ≡ self.now.start +ℤ pos (1800 * self.now.count) }
        ensures next { (midnight : Midnights) → midnight self.now.date ≡ self.now.start
            → count_of midnight self.now.date ≡ Some self.now.count → result ≡ midnight (self.now.date + 1) }
    {
        self.start + 1800 * i64::from(self.count)
    }

    /// Whether the day is over at a moment, in seconds since 1970-01-01T00:00:00Z (profile).
    pub fn is_over(&self, moment: i64) -> bool
        ensures value { result ≡ int_le (self.now.start +ℤ pos (1800 * self.now.count)) moment }
        ensures over { (midnight : Midnights) → midnight self.now.date ≡ self.now.start
            → count_of midnight self.now.date ≡ Some self.now.count → result ≡ is_over midnight self.now.date moment }
    {
        self.end() <= moment
    }
}

/// The Settlement Day of a date in a zone. `OutOfRange` if the date is not from 2001-01-01 to
/// 2099-12-31. `OddDay` if it is, but doesn't have 46, 48 or 50 half hours (profile).
pub fn day_of(date: Date, zone: &TimeZone<'_>) -> Result<Day, TimeFault>
    ensures date { IfOk result (λ day. pos day.date ≡ epoch_day date) }
    ensures start { IfOk result (λ day. day.start ≡ midnight_in (plain_zone zone.now) day.date) }
    ensures count { IfOk result (λ day. count_in (plain_zone zone.now) day.date ≡ Some day.count) }
    ensures out_of_range { IsErrOf result TimeFault.OutOfRange ↔ ¬ (IsAccepted date) }
    ensures odd { IsErrOf result TimeFault.OddDay
        ↔ (IsAccepted date × (count_in (plain_zone zone.now) (unsigned_abs (epoch_day date)) ≡ None)) }
    ensures no_memory { result ≢ Err TimeFault.Memory }
{
    let Some(date) = SettlementDate::of_date(date) else {
        return Err(TimeFault::OutOfRange);
    };
    Day::of(date, zone).ok_or(TimeFault::OddDay)
}

/// The instant at which a period begins, in seconds since 1970-01-01T00:00:00Z (profile). The period
/// is 1 to the day's count.
pub fn period_start(day: &Day, period: u8) -> i64
    requires from { 1 ≤ period }
    requires to { period ≤ day.now.count }
    ensures value { result ≡ day.now.start +ℤ pos (1800 * (period - 1)) }
    ensures begins { (midnight : Midnights) → midnight day.now.date ≡ day.now.start
        → result ≡ begins midnight day.now.date period }
{
    day.start + 1800 * (i64::from(period) - 1)
}

/// The instant before which a notification of the period has to come, in seconds since
/// 1970-01-01T00:00:00Z: the period's start less the lead, which is at most 1,440 minutes (profile).
/// A notification at that second is late.
pub fn deadline(day: &Day, period: u8, lead_minutes: u16) -> i64
    requires from { 1 ≤ period }
    requires to { period ≤ day.now.count }
    requires lead { lead_minutes ≤ 1440 }
    ensures value { result ≡ day.now.start +ℤ pos (1800 * (period - 1)) -ℤ pos (60 * lead_minutes) }
    ensures deadline { (midnight : Midnights) → midnight day.now.date ≡ day.now.start
        → result ≡ words.deadline midnight lead_minutes day.now.date period }
{
    period_start(day, period) - 60 * i64::from(lead_minutes)
}

/// How many half-hour periods a number of seconds has, if a Settlement Day can have that many.
fn half_hours(seconds: i64) -> Option<u8>
    ensures { result ≡ half_hours seconds }
{
    if seconds == 82_800 {
        Some(46)
    } else if seconds == 86_400 {
        Some(48)
    } else if seconds == 90_000 {
        Some(50)
    } else {
        None
    }
}
