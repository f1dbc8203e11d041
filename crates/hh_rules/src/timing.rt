//! Whether a row's Settlement Period exists, and whether the row comes in time for it.

ghost use Rattle.std.specs.Prelude.{◌≡◌, true, not, Some, None, IfNone, IfSome};
ghost use Rattle.jiff.specs.Words.{plain_zone};
ghost use Rattle.hh_rows.specs.Zone.{count_in, midnight_in};
ghost use Rattle.hh_rules.specs.Lateness.{accepted_at, comes_in_time, lacks_period, timing_by, timing_of};
ghost use Rattle.hh_rules.specs.steps.Lateness.{notification_timing};
ghost use Rattle.hh_rules.specs.RegisterView.{timetable_in, timetable_of};
ghost use Rattle.hh_rules.specs.steps.RegisterView.{IsKeptIn};

use crate::register::Register;
use hh_rows::{Day, LeadMinutes, Row, SettlementDate, SettlementPeriod, deadline};
use jiff::tz::TimeZone;

/// Whether the date of a row has the row's Settlement Period, and whether the row comes in time for it
/// (Section P in shape).
#[derive(Clone, Copy, Debug, PartialEq, Eq)]
pub enum Timing {
    /// The date lacks the period.
    NoSuchPeriod,
    /// The moment is at the deadline or later.
    Late,
    /// The row has no deadline, or comes before it.
    InTime,
}

impl Timing {
    /// Whether the date lacks the period.
    pub(crate) fn lacks_period(self) -> bool
        ensures { result ≡ lacks_period self }
    {
        matches!(self, Timing::NoSuchPeriod)
    }

    /// Whether the date has the period, and the row is not late.
    pub(crate) fn comes_in_time(self) -> bool
        ensures { result ≡ comes_in_time self }
    {
        matches!(self, Timing::InTime)
    }

    /// The timing of a row that is never late, by whether its date has the period.
    pub(crate) fn never_late(self) -> Timing
        ensures { result ≡ timing_by (not (lacks_period self)) true }
    {
        match self {
            Timing::Late => Timing::InTime,
            timing => timing,
        }
    }
}

impl Register {
    /// The timing of a row that comes at a moment, in seconds since 1970-01-01T00:00:00Z. Rows of parties
    /// and units have no period. Only contracts and reallocations are ever late. Keeps the Settlement Day
    /// that was asked for last.
    pub(crate) fn timing_of(
        &self,
        last: &mut Option<Day>,
        zone: &TimeZone<'_>,
        moment: i64,
        row: &Row,
    ) -> Timing
        requires { IsKeptIn zone.now last.old }
        ensures timing { result ≡ timing_of (timetable_of zone.now self.now)
            (accepted_at moment row.now) }
        ensures kept { IsKeptIn zone.now last.new }
    {
        let lead = self.lead_minutes();
        match row {
            Row::Party(_) | Row::Unit(_) => Timing::InTime,
            Row::Meter(row) => notification_timing(
                last, row.key.at, zone, lead, moment,
            ).never_late(),
            Row::Price(row) => notification_timing(last, row.at, zone, lead, moment).never_late(),
            Row::Contract(row) => notification_timing(last, row.key.at, zone, lead, moment),
            Row::Reallocation(row) => {
                notification_timing(last, row.key.unit_period.at, zone, lead, moment)
            }
        }
    }
}

/// The timing of a row of contracts or reallocations for a Settlement Period. The row comes at a
/// moment, in seconds since 1970-01-01T00:00:00Z (Section P in shape; the deadline is profile).
fn notification_timing(
    last: &mut Option<Day>,
    at: SettlementPeriod,
    zone: &TimeZone<'_>,
    lead_minutes: LeadMinutes,
    moment: i64,
) -> Timing
    requires { IsKeptIn zone.now last.old }
    ensures timing { result ≡ notification_timing (timetable_in zone.now lead_minutes) moment at }
    ensures kept { IsKeptIn zone.now last.new }
{
    let number = at.period.number();
    match day_again(last, at.date, zone) {
        Some(day) if day.has_period(number) => {
            if moment < deadline(&day, number, lead_minutes.minutes()) {
                Timing::InTime
            } else {
                Timing::Late
            }
        }
        _ => Timing::NoSuchPeriod,
    }
}

/// The Settlement Day of a date in a zone, if it has one. Keeps the one that was asked for last, because
/// most rows of a file name the same date, and midnights take time to compute.
fn day_again(last: &mut Option<Day>, date: SettlementDate, zone: &TimeZone<'_>) -> Option<Day>
    requires { IsKeptIn zone.now last.old }
    ensures date { IfSome result (λ day. day.date ≡ date) }
    ensures start { IfSome result (λ day. day.start ≡ midnight_in (plain_zone zone.now) date) }
    ensures count { IfSome result (λ day. count_in (plain_zone zone.now) date ≡ Some day.count) }
    ensures odd { IfNone result (count_in (plain_zone zone.now) date ≡ None) }
    ensures kept { IsKeptIn zone.now last.new }
{
    let is_known = match *last {
        Some(day) => day.date == date,
        None => false,
    };
    if !is_known {
        *last = Day::of(date, zone);
    }
    *last
}
