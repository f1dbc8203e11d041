//! Dates of the rows of a file.

ghost use Rattle.std.specs.Prelude.{◌≡◌};
ghost use Rattle.hh_time.specs.DateText.{date_value};
ghost use Rattle.hh_time.specs.Days.{last_date};

use hh_time::{SettlementDate, dates_read_back};
use std::marker::Model;

/// The date that was read last and its text. Most rows of a file have the date of the row before them, so
/// a field with this text isn't read again.
#[derive(Clone, Copy, Debug, PartialEq, Eq)]
pub struct LastDate {
    date: SettlementDate,
    text: [u8; 10],
}

impl Model for LastDate {
    ghost use Rattle.std.specs.Prelude.{ℕ, ◌≡◌};
    ghost use Rattle.hh_time.specs.DateText.{date_text};
    ghost use Rattle.hh_time.specs.Days.{is_accepted};

    ghost Value = { ℕ };

    ghost view = { λ d. d.date };

    ghost invariant = { λ d. d.text ≡ date_text d.date };

    ghost inverse = { λ n. record { date = n; text = date_text n } };
}

impl LastDate {
    /// Before any date was read: the last date of all.
    pub fn new() -> LastDate
        ensures { result ≡ last_date }
    {
        LastDate::of(SettlementDate::last())
    }

    /// A date with its text.
    fn of(date: SettlementDate) -> LastDate
        ensures { result ≡ date }
    {
        LastDate {
            date,
            text: date.text(),
        }
    }

    /// The date that a field of the form `YYYY-MM-DD` names. None for any other text, and for a date that
    /// is not from 2001-01-01 to 2099-12-31.
    pub fn read(&mut self, field: &[u8]) -> Option<SettlementDate>
        ensures { result ≡ date_value field.now }
    {
        // Does nothing, but carries a law for the proof: the text of a date reads as that date.
        dates_read_back();
        if field != self.text.as_slice() {
            *self = LastDate::of(SettlementDate::read(field)?);
        }
        Some(self.date)
    }
}
