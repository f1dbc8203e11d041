//! Numbers of digits alone.

ghost use Rattle.std.specs.Prelude.{◌≡◌};
ghost use Rattle.hh_num.specs.Fixed.{fits_u64, kept_if};
ghost use Rattle.hh_num.specs.Naturals.{natural_value};

use crate::fixed::number_of;

/// Reads a text of digits alone: one or more ASCII digits, with neither a sign nor a point. Zeros in
/// front are allowed. A number among words is written so if its range has no number below 0 (profile).
///
/// `None` if the text has another form, or its number is no `u64`.
#[tactic(auto, using(crate::proofs::NaturalFacts::natural_value_by_length))]
pub fn read_natural(text: &[u8]) -> Option<u64>
    ensures { result ≡ kept_if fits_u64 (natural_value text.now) }
{
    if text.is_empty() {
        return None;
    }
    number_of(text)
}
