//! The length of the body that a head gives.

ghost use Rattle.std.specs.Prelude.{◌≡◌};
ghost use Rattle.hh_http_heads.specs.steps.Lengths.{length_value};

/// The number that a text of one or more digits writes, or the greatest `u64` if it is larger. It is `None`
/// for any other text.
pub(crate) fn read_length(text: &[u8]) -> Option<u64>
    ensures { result ≡ length_value text.now }
{
    if text.is_empty() {
        return None;
    }
    let mut number = 0u64;
    for digit in text {
        if !digit.is_ascii_digit() {
            return None;
        }
        number = number
            .saturating_mul(10)
            .saturating_add(u64::from(digit - b'0'));
    }
    Some(number)
}
