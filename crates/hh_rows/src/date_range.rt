//! Ranges of dates.

ghost use Rattle.std.specs.Prelude.{◌≡◌, ◌≤◌, SomeIff};
ghost use Rattle.hh_rows.specs.DateRanges.{Range, begun_by, holds, is_inside, last_date_value, range_to_value};

use hh_time::SettlementDate;
use std::marker::Model;

/// The dates from a first to a last, both included (profile).
#[derive(Clone, Copy, Debug, PartialEq, Eq)]
pub struct DateRange {
    from: SettlementDate,
    to: SettlementDate,
}

impl Model for DateRange {
    ghost use Rattle.std.specs.Prelude.{◌≤◌};
    ghost use Rattle.hh_rows.specs.DateRanges.{Range};

    ghost Value = { Range };

    ghost view = { λ r. record { from = r.from; to = r.to } };

    ghost invariant = { λ r. r.from ≤ r.to };

    ghost inverse = { λ r. record { from = r.from; to = r.to } };
}

impl DateRange {
    /// The range from one date to another, if the second isn't before the first.
    pub fn new(from: SettlementDate, to: SettlementDate) -> Option<DateRange>
        ensures { SomeIff result (from ≤ to) (record { from = from; to = to }) }
    {
        if from <= to {
            Some(DateRange { from, to })
        } else {
            None
        }
    }

    /// The range from a date to the one that a text names. An empty text means 2099-12-31. `None`
    /// if the text names no date, or one before the first.
    #[tactic(auto, unfolding(crate::specs::DateRanges::range_to_value))]
    pub fn read_to(from: SettlementDate, to: &[u8]) -> Option<DateRange>
        ensures { result ≡ range_to_value from to.now }
    {
        DateRange::new(from, read_last_date(to)?)
    }

    /// The first date.
    pub fn from(self) -> SettlementDate
        ensures { result ≡ self.from }
    {
        self.from
    }

    /// The last date.
    pub fn to(self) -> SettlementDate
        ensures { result ≡ self.to }
    {
        self.to
    }

    /// The first and the last date. The last isn't before the first.
    pub fn ends(self) -> (SettlementDate, SettlementDate)
        ensures value { result ≡ (self.from, self.to) }
        ensures rising { self.from ≤ self.to }
    {
        (self.from, self.to)
    }

    /// The range with the earlier of its first date and this one as its first.
    pub fn begun_by(self, date: SettlementDate) -> DateRange
        ensures { result ≡ begun_by date self }
    {
        if date <= self.from {
            DateRange {
                from: date,
                to: self.to,
            }
        } else {
            self
        }
    }

    /// Whether the date is one of the range.
    pub fn holds(self, date: SettlementDate) -> bool
        ensures { result ≡ holds self date }
    {
        self.from <= date && date <= self.to
    }

    /// Whether each date of this range is in the other. Its first and last dates decide it.
    pub fn is_inside(self, other: DateRange) -> bool
        ensures { result ≡ is_inside self other }
    {
        other.from() <= self.from() && self.to() <= other.to()
    }
}

/// The last date of a range that a text names. An empty text means 2099-12-31.
fn read_last_date(text: &[u8]) -> Option<SettlementDate>
    ensures { result ≡ last_date_value text.now }
{
    if text.is_empty() {
        Some(SettlementDate::last())
    } else {
        SettlementDate::read(text)
    }
}
