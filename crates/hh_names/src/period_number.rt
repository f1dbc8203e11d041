//! The numbers of Settlement Periods.

ghost use Rattle.std.specs.Prelude.{◌≡◌, ◌≤◌, SomeIff};
ghost use Rattle.hh_names.specs.Fields.{period_value};

use hh_num::read_fixed;
use std::marker::Model;

/// The number of a Settlement Period within its Settlement Day, 1 to 50 (profile).
#[derive(Clone, Copy, Debug, PartialEq, Eq, PartialOrd, Ord)]
pub struct PeriodNumber {
    number: u8,
}

impl Model for PeriodNumber {
    ghost use Rattle.std.specs.Prelude.{ℕ, ◌≤◌};

    ghost Value = { ℕ };

    ghost view = { λ p. p.number };

    ghost invariant = { λ p. (1 ≤ p.number) × (p.number ≤ 50) };

    ghost inverse = { λ n. record { number = n } };
}

impl PeriodNumber {
    /// The period of that number, if it is 1 to 50.
    pub fn new(number: u8) -> Option<PeriodNumber>
        ensures { SomeIff result ((1 ≤ number) × (number ≤ 50)) number }
    {
        if 1 <= number && number <= 50 {
            Some(PeriodNumber { number })
        } else {
            None
        }
    }

    /// The period whose number a text writes: 1 to 50, in the grammar of `read_fixed` without decimals.
    #[tactic(auto, unfolding(crate::specs::Fields::period_value))]
    pub fn read(text: &[u8]) -> Option<PeriodNumber>
        ensures { result ≡ period_value text.now }
    {
        let number = read_fixed(text, 0)?;
        PeriodNumber::new(u8::try_from(number).ok()?)
    }

    /// The number.
    pub fn number(self) -> u8
        ensures value { result ≡ self }
        ensures range { (1 ≤ self) × (self ≤ 50) }
    {
        self.number
    }
}
