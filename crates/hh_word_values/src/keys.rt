//! Keys that are shown.

ghost use Rattle.std.specs.Prelude.{◌≡◌};
ghost use Rattle.std.specs.Option.{option_copied};
ghost use Rattle.hh_word_values.specs.Values.{shown_key_value};

use hh_names::{AccessKey, OperatorKey};

/// Reads a key (profile): the operator's, or that of a party, which may or may not be registered.
#[tactic(auto, unfolding(crate::specs::Values::shown_key_value))]
pub fn read_shown_key(word: &[u8]) -> Option<&[u8]>
    ensures { option_copied result ≡ shown_key_value word.now }
{
    if OperatorKey::read(word).is_some() || AccessKey::read(word).is_some() {
        Some(word)
    } else {
        None
    }
}
