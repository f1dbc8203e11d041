//! Local midnights, and the zone of the market.

ghost use Rattle.std.specs.Prelude.{◌≡◌, ◌*◌, pos, ◌+ℤ◌, ◌-ℤ◌, codes};
ghost use Rattle.jiff.specs.Placed.{IsPosixZone};
ghost use Rattle.jiff.specs.Words.{plain_zone, IsBetween};
ghost use Rattle.hh_time.specs.Zone.{midnight_in};

use crate::date::{SettlementDate, calendar_date};
use jiff::tz::TimeZone;

/// The zone of the market, for all dates: forward at 01:00 UTC on the last Sunday of March, back at
/// 01:00 UTC on the last Sunday of October (profile).
pub fn london() -> TimeZone<'static>
    ensures { IsPosixZone (codes "GMT0BST,M3.5.0/1,M10.5.0") (plain_zone result) }
{
    match TimeZone::posix("GMT0BST,M3.5.0/1,M10.5.0") {
        Ok(zone) => zone,
        Err(_) => unreachable!(),
    }
}

/// The instant of the local midnight at which a date begins in a zone, in seconds since
/// 1970-01-01T00:00:00Z. If the zone skips or repeats midnight, it is the instant that `jiff`'s
/// compatible conversion picks (profile).
pub fn midnight(date: SettlementDate, zone: &TimeZone<'_>) -> i64
    ensures value { result ≡ midnight_in (plain_zone zone.now) date }
    ensures range { IsBetween (pos 0) (pos 5_000_000_000) result }
{
    midnight_on(date.number(), zone)
}

/// The instant of local midnight `days` days after 1970-01-01. It is less than 26 hours from midnight in
/// UTC.
pub(crate) fn midnight_on(days: u16, zone: &TimeZone<'_>) -> i64
    ensures value { result ≡ midnight_in (plain_zone zone.now) days }
    ensures near { IsBetween (pos (86_400 * days) -ℤ pos 93_600)
        (pos (86_400 * days) +ℤ pos 93_600) result }
{
    match calendar_date(days).to_zoned(*zone) {
        Ok(zoned) => zoned.timestamp().as_second(),
        Err(_) => unreachable!(),
    }
}
