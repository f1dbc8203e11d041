//! Moments.

ghost use Rattle.std.specs.Prelude.{◌≡◌};
ghost use Rattle.hh_word_values.specs.Values.{moment_value};

use hh_num::read_fixed;

/// Reads a moment, in whole seconds since 1970-01-01T00:00:00Z (profile).
pub fn read_moment(word: &[u8]) -> Option<i64>
    ensures { result ≡ moment_value word.now }
{
    read_fixed(word, 0)
}
