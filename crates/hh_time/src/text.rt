//! Dates as texts, `YYYY-MM-DD`.

ghost use Rattle.std.specs.Prelude.{◌≡◌, ℕ, ◌+◌, ◌<◌, ◌/◌, ◌%◌, List, [], Some, IfSome, IfNone, IsAscii, IsTrue};
ghost use Rattle.jiff.specs.Types.{Date as PlainDate};
ghost use Rattle.hh_time.specs.DateText.{date_text, date_value, text_of, two_digits};
ghost use Rattle.hh_time.specs.steps.DateText.{IsDashed};
ghost use Rattle.hh_time.specs.Days.{is_accepted};
ghost use Rattle.hh_time.specs.Zone.{IsAccepted};

use crate::date::SettlementDate;
use jiff::civil::Date;

/// The date that a text of the form `YYYY-MM-DD` names. None for any other text, and for a date that
/// is not from 2001-01-01 to 2099-12-31 (profile).
pub fn read_date(text: &[u8]) -> Option<Date>
    ensures date { IfSome result (λ date. IsAccepted date × (text.now ≡ text_of date)) }
    ensures none { IfNone result ((date : PlainDate) → IsAccepted date
        → ¬ (text.now ≡ text_of date)) }
{
    let Parts {
        century,
        year,
        month,
        day,
    } = parts_of(text)?;
    let year = i16::from(century) * 100 + i16::from(year);
    if year < 2001 || year > 2099 {
        return None;
    }
    Date::new(year, month as i8, day as i8).ok()
}

impl SettlementDate {
    /// The date that a text of the form `YYYY-MM-DD` names. None for any other text, and for a date
    /// that is not accepted (profile).
    pub fn read(text: &[u8]) -> Option<SettlementDate>
        ensures some { IfSome result (λ d. text.now ≡ date_text d) }
        ensures none { IfNone result ((d : ℕ) → IsTrue (is_accepted d)
            → ¬ (text.now ≡ date_text d)) }
        ensures exact { result ≡ date_value text.now }
    {
        SettlementDate::of_date(read_date(text)?)
    }

    /// The text of the date, `YYYY-MM-DD`.
    pub fn text(self) -> [u8; 10]
        ensures value { result ≡ date_text self }
        ensures ascii { IsAscii result }
    {
        let date = self.date();
        let year = date.year() as u16;
        let [a, b] = digits((year / 100) as u8);
        let [c, d] = digits((year % 100) as u8);
        let [e, f] = digits(date.month() as u8);
        let [g, h] = digits(date.day() as u8);
        [a, b, c, d, b'-', e, f, b'-', g, h]
    }
}

/// The text of an accepted date reads as that date, and a text that reads as a date is the text of that
/// date. So each date that is written is read back.
pub fn dates_read_back()
    ensures spelled { (d : ℕ) → IsTrue (is_accepted d) → date_value (date_text d) ≡ Some d }
    ensures one_date { (text : List ℕ) (d : ℕ) → date_value text ≡ Some d → text ≡ date_text d }
{}

/// The four numbers of two digits in a text of the form `NNNN-NN-NN`.
#[derive(Clone, Copy)]
struct Parts {
    century: u8,
    year: u8,
    month: u8,
    day: u8,
}

/// The parts of a text of the form `NNNN-NN-NN`, or none if it has another form.
fn parts_of(text: &[u8]) -> Option<Parts>
    ensures some { IfSome result (λ p. IsDashed text.now p.century p.year p.month p.day) }
    ensures none { IfNone result ((a b c d : ℕ) → ¬ (IsDashed text.now a b c d)) }
{
    if text.len() != 10 || text[4] != b'-' || text[7] != b'-' {
        return None;
    }
    let a = two_digits(text[0], text[1])?;
    let b = two_digits(text[2], text[3])?;
    let c = two_digits(text[5], text[6])?;
    let d = two_digits(text[8], text[9])?;
    Some(Parts {
        century: a,
        year: b,
        month: c,
        day: d,
    })
}

/// The two digits of a number below 100.
fn digits(number: u8) -> [u8; 2]
    requires { number < 100 }
    ensures { result ≡ two_digits number [] }
{
    [b'0' + number / 10, b'0' + number % 10]
}

/// The number of two digits.
fn two_digits(tens: u8, ones: u8) -> Option<u8>
    ensures number { IfSome result (λ n. (n < 100) × (tens ≡ 48 + n / 10) × (ones ≡ 48 + n % 10)) }
    ensures none { IfNone result ((n : ℕ) → n < 100 → tens ≡ 48 + n / 10 → ¬ (ones ≡ 48 + n % 10)) }
{
    if tens < b'0' || tens > b'9' || ones < b'0' || ones > b'9' {
        return None;
    }
    Some((tens - b'0') * 10 + (ones - b'0'))
}
