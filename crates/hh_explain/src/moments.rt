//! Dates as texts, and the moments of a date.

use hh_time::{Day, SettlementDate, london};
use std::{fmt, str};

/// A date, written `YYYY-MM-DD`.
#[derive(Clone, Copy)]
pub(crate) struct DateText(pub SettlementDate);

impl fmt::Display for DateText {
    fn fmt<W: fmt::Write>(&self, f: &mut fmt::Formatter<W>) -> fmt::Result {
        let text = self.0.text();
        f.write_str(str::from_utf8(&text).unwrap_or(""))
    }
}

/// The Settlement Day of a date in the market's zone.
pub(crate) fn local_day(date: SettlementDate) -> Option<Day> {
    Day::of(date, &london())
}
