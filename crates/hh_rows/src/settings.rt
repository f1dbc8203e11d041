//! What an office is set up with.

ghost use Rattle.std.specs.Prelude.{◌≡◌, ◌≤◌, SomeIff};
ghost use Rattle.hh_rows.specs.Minutes.{lead_minutes_value};
ghost use Rattle.hh_rows.specs.Values.{AreSettings};

use hh_names::{OperatorKey, read_natural};
use std::marker::Model;

/// The whole minutes by which notifications close before the start of their Settlement Period, 0
/// to 1,440 (profile). Contracts see the number.
#[derive(Clone, Copy, Debug, PartialEq, Eq, PartialOrd, Ord)]
pub struct LeadMinutes {
    minutes: u16,
}

impl Model for LeadMinutes {
    ghost use Rattle.std.specs.Prelude.{ℕ, ◌≤◌};

    ghost Value = { ℕ };

    ghost view = { λ m. m.minutes };

    ghost invariant = { λ m. m.minutes ≤ 1440 };

    ghost inverse = { λ n. record { minutes = n } };
}

impl LeadMinutes {
    /// The lead of these minutes, if they are at most 1,440.
    pub fn new(minutes: u16) -> Option<LeadMinutes>
        ensures { SomeIff result (minutes ≤ 1440) minutes }
    {
        if minutes <= 1440 {
            Some(LeadMinutes { minutes })
        } else {
            None
        }
    }

    /// The minutes that a text writes: 0 to 1,440, in the grammar of `read_natural`.
    #[tactic(auto, unfolding(crate::specs::Minutes::lead_minutes_value))]
    pub fn read(text: &[u8]) -> Option<LeadMinutes>
        ensures { result ≡ lead_minutes_value text.now }
    {
        let minutes = read_natural(text)?;
        LeadMinutes::new(u16::try_from(minutes).ok()?)
    }

    /// The number of minutes.
    pub fn minutes(self) -> u16
        ensures value { result ≡ self }
        ensures range { self ≤ 1440 }
    {
        self.minutes
    }
}

impl Default for LeadMinutes {
    ghost is_default = { λ minutes. minutes ≡ 60 };

    /// 60 minutes (profile).
    fn default() -> LeadMinutes {
        LeadMinutes { minutes: 60 }
    }
}

/// What an office is set up with.
#[derive(Clone, Copy, Debug, PartialEq, Eq)]
pub struct Settings {
    /// How long before a Settlement Period its notifications close.
    pub lead_minutes: LeadMinutes,
    /// The key that the operator shows.
    pub operator_key: OperatorKey,
}

impl Settings {
    /// A fact for proofs: the minutes are within their range, and the key is in its grammar. The call
    /// does nothing.
    pub fn are_settings(&self)
        ensures { AreSettings self.now }
    {
        self.lead_minutes.minutes();
        self.operator_key.as_bytes();
    }
}
