//! The key of the operator.

ghost use Rattle.std.specs.Prelude.{◌≡◌, IsTrue};
ghost use Rattle.hh_names.specs.Words.{is_operator_key, operator_key_value};

use crate::word::{AccessKeyAlphabet, ReferenceAlphabet, Word, is_word_of};
use std::marker::Model;

/// The key that the operator shows: `op-` and 8 to 61 letters or digits (profile). No party's key
/// has a dash, so no party has this key. Contracts see the list of the bytes.
#[derive(Clone, Copy, Debug, PartialEq, Eq)]
pub struct OperatorKey {
    text: Word<ReferenceAlphabet, 11, 64>,
}

impl Model for OperatorKey {
    ghost use Rattle.std.specs.Prelude.{◌≡◌, List, ℕ, true};
    ghost use Rattle.hh_names.specs.Words.{is_operator_key};

    ghost Value = { List ℕ };

    ghost view = { λ k. k.text };

    ghost invariant = { λ k. is_operator_key k.text ≡ true };

    ghost inverse = { λ text. record { text = text } };
}

impl OperatorKey {
    /// These bytes as the operator's key, if they are one.
    #[tactic(auto, using(crate::proofs::WordFacts::operator_key_is_word), unfolding(crate::specs::Words::is_operator_key))]
    pub fn read(text: &[u8]) -> Option<OperatorKey>
        ensures { result ≡ operator_key_value text.now }
    {
        let secret = text.strip_prefix(b"op-")?;
        if is_word_of::<AccessKeyAlphabet>(secret, 8, 61) {
            Some(OperatorKey {
                text: Word::of(text),
            })
        } else {
            None
        }
    }

    /// The bytes of the key: `op-` and 8 to 61 letters or digits.
    pub fn as_bytes(&self) -> &[u8]
        ensures bytes { result.now ≡ self.now }
        ensures operator { IsTrue (is_operator_key self.now) }
    {
        self.text.as_bytes()
    }
}
