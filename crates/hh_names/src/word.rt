//! Words: ids of parties and units, references, access keys and names of files.

ghost use Rattle.std.specs.Prelude.{◌≡◌, ◌<◌, ℕ, Bool, true, false, refl, nat_eq};
ghost use Rattle.std.specs.List.{list_all};
ghost use Rattle.std.specs.Cmp.{partial_order_from_own_ties};
ghost use Rattle.std.specs.Cmp.Rules.{comparing};
ghost use Rattle.std.specs.Cmp.Lexicographic.{pointwise, slice_cmp};
ghost use Rattle.std.specs.Ordering.{as_partial_cmp, nat_cmp};
ghost use Rattle.std.proofs.Common.{rules};
ghost use Rattle.hh_names.specs.Words.{is_capital_or_digit, is_file_name_byte, is_letter_or_digit, is_unit_byte, is_reference_byte, is_word, word_value};

use crate::bytes::order_of_bytes;
use std::cmp::Ordering;
use std::marker::{Model, PhantomData};
use std::str;

/// Which bytes a word may have.
pub trait Alphabet {
    ghost allows: { ℕ → Bool };

    fn allows(byte: u8) -> bool
        ensures { result ≡ allows byte };

    // Zeros fill the rest of a word's buffer.
    ghost no_zero: { allows 0 ≡ false };

    // A word is text.
    ghost ascii: { (b : ℕ) → allows b ≡ true → b < 128 };
}

/// `LEAST` to `MOST` bytes of one alphabet, kept in place and followed by zeros. Contracts see the
/// list of the bytes.
#[derive(Clone, Copy, Debug)]
pub struct Word<A: Alphabet, const LEAST: usize, const MOST: usize> {
    bytes: [u8; MOST],
    alphabet: PhantomData<A>,
}

impl<A: Alphabet, const LEAST: usize, const MOST: usize> Model for Word<A, LEAST, MOST> {
    ghost use Rattle.std.specs.Prelude.{◌≡◌, List, ℕ, true};
    ghost use Rattle.hh_names.specs.Words.{is_word, padded, word_in};

    ghost Value = { List ℕ };

    ghost view = { λ w. word_in w.bytes };

    ghost invariant = { λ w. (padded MOST (word_in w.bytes) ≡ w.bytes)
        × (is_word A.allows LEAST MOST (word_in w.bytes) ≡ true) };

    ghost inverse = { λ text. record { bytes = padded MOST text; alphabet = record {} } };

    ghost inverse_ok = { λ w h. λ i. record { bytes = h.0 i; alphabet = record {} } };
}

impl<A: Alphabet, const LEAST: usize, const MOST: usize> Word<A, LEAST, MOST> {
    /// The bytes of the word: `LEAST` to `MOST`, each of its alphabet.
    pub fn as_bytes(&self) -> &[u8]
        ensures bytes { result.now ≡ self.now }
        ensures word { is_word A.allows LEAST MOST self.now ≡ true }
    {
        let len = self.bytes.iter().take_while(|byte| **byte != 0).count();
        &self.bytes[..len]
    }

    /// The word as text.
    pub fn as_str(&self) -> &str
        ensures { result.now ≡ self.now }
    {
        match str::from_utf8(self.as_bytes()) {
            Ok(text) => text,
            Err(_) => unreachable!(),
        }
    }

    /// These bytes as a word, if they are one.
    pub fn read(text: &[u8]) -> Option<Self>
        ensures { result ≡ word_value A.allows LEAST MOST text.now }
    {
        if is_word_of::<A>(text, LEAST, MOST) {
            Some(Self::of(text))
        } else {
            None
        }
    }

    /// These bytes as a word, which they must be.
    #[tactic(auto, unfolding(crate::specs::Words::is_word))]
    pub(crate) fn of(text: &[u8]) -> Self
        requires { is_word A.allows LEAST MOST text.now ≡ true }
        ensures { result ≡ text.now }
    {
        let mut bytes = [0; MOST];
        bytes[..text.len()].copy_from_slice(text);
        Word {
            bytes,
            alphabet: PhantomData,
        }
    }
}

/// Whether the text is a word: `least` to `most` bytes, all of the alphabet.
#[tactic(auto, unfolding(crate::specs::Words::is_word))]
pub(crate) fn is_word_of<A: Alphabet>(text: &[u8], least: usize, most: usize) -> bool
    ensures { result ≡ is_word A.allows least most text.now }
{
    least <= text.len() && text.len() <= most && all_allowed::<A>(text)
}

fn all_allowed<A: Alphabet>(text: &[u8]) -> bool
    ensures { result ≡ list_all A.allows text.now }
{
    text.iter().all(|byte| A::allows(*byte))
}

/// Capital letters and digits.
#[derive(Clone, Copy, Debug)]
pub struct PartyIdAlphabet;

impl Alphabet for PartyIdAlphabet {
    ghost allows = { is_capital_or_digit };

    fn allows(byte: u8) -> bool {
        byte.is_ascii_uppercase() || byte.is_ascii_digit()
    }

    ghost no_zero = { refl };

    ghost ascii = { Prim.search rules };
}

/// A party's id: 1 to 10 capital letters or digits (profile).
pub type PartyId = Word<PartyIdAlphabet, 1, 10>;

/// Capital letters, digits, the underscore and the dash.
#[derive(Clone, Copy, Debug)]
pub struct UnitIdAlphabet;

impl Alphabet for UnitIdAlphabet {
    ghost allows = { is_unit_byte };

    fn allows(byte: u8) -> bool {
        byte.is_ascii_uppercase() || byte.is_ascii_digit() || byte == b'_' || byte == b'-'
    }

    ghost no_zero = { refl };

    ghost ascii = { Prim.search rules };
}

/// A BM Unit's id: 1 to 16 capital letters, digits, underscores or dashes (profile).
pub type UnitId = Word<UnitIdAlphabet, 1, 16>;

/// Letters, digits, the underscore and the dash.
#[derive(Clone, Copy, Debug)]
pub struct ReferenceAlphabet;

impl Alphabet for ReferenceAlphabet {
    ghost allows = { is_reference_byte };

    fn allows(byte: u8) -> bool {
        byte.is_ascii_alphanumeric() || byte == b'_' || byte == b'-'
    }

    ghost no_zero = { refl };

    ghost ascii = { Prim.search rules };
}

/// A contract's reference: 1 to 20 letters, digits, underscores or dashes (profile).
pub type Reference = Word<ReferenceAlphabet, 1, 20>;

/// Letters and digits.
#[derive(Clone, Copy, Debug)]
pub struct AccessKeyAlphabet;

impl Alphabet for AccessKeyAlphabet {
    ghost allows = { is_letter_or_digit };

    fn allows(byte: u8) -> bool {
        byte.is_ascii_alphanumeric()
    }

    ghost no_zero = { refl };

    ghost ascii = { Prim.search rules };
}

/// The key that a party shows: 8 to 64 letters or digits (profile).
pub type AccessKey = Word<AccessKeyAlphabet, 8, 64>;

/// Letters, digits, the point, the underscore and the dash.
#[derive(Clone, Copy, Debug)]
pub struct FileNameAlphabet;

impl Alphabet for FileNameAlphabet {
    ghost allows = { is_file_name_byte };

    fn allows(byte: u8) -> bool {
        byte.is_ascii_alphanumeric() || byte == b'.' || byte == b'_' || byte == b'-'
    }

    ghost no_zero = { refl };

    ghost ascii = { Prim.search rules };
}

/// The name by which a file is registered, never a path: 1 to 64 letters, digits, points, underscores
/// or dashes (profile).
pub type FileName = Word<FileNameAlphabet, 1, 64>;

impl<A: Alphabet, const LEAST: usize, const MOST: usize> PartialEq for Word<A, LEAST, MOST> {
    ghost eq = { pointwise nat_eq };

    ghost laws = { Prim.search (comparing, rules) };

    fn eq(&self, other: &Word<A, LEAST, MOST>) -> bool {
        self.cmp(other).is_eq()
    }
}

impl<A: Alphabet, const LEAST: usize, const MOST: usize> Eq for Word<A, LEAST, MOST> {
    ghost laws = { Prim.search (comparing, rules) };
}

impl<A: Alphabet, const LEAST: usize, const MOST: usize> Ord for Word<A, LEAST, MOST> {
    ghost cmp = { slice_cmp nat_cmp };

    ghost total = { Prim.search (comparing, rules) };

    ghost matches_partial_cmp = { Prim.search (comparing, rules) };

    ghost matches_eq = { Prim.search (comparing, rules) };

    // Comparing the buffers is enough: zeros follow the words, and no word has a zero.
    fn cmp(&self, other: &Word<A, LEAST, MOST>) -> Ordering {
        order_of_bytes(&self.bytes, &other.bytes)
    }
}

impl<A: Alphabet, const LEAST: usize, const MOST: usize> PartialOrd for Word<A, LEAST, MOST> {
    ghost partial_cmp = { as_partial_cmp (slice_cmp nat_cmp) };

    ghost laws = { partial_order_from_own_ties (Prim.search (comparing, rules)) (Prim.search (comparing, rules)) };

    fn partial_cmp(&self, other: &Word<A, LEAST, MOST>) -> Option<Ordering> {
        Some(self.cmp(other))
    }
}
