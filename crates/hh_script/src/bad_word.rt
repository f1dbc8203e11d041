//! The first wrong word of a line that is off its form.

use crate::blemish::Blemish;
use crate::expected::{Expected, form_of};
use crate::words::split_word;
use hh_word_values::CutText;
use std::fmt;

/// The first wrong word of a line that is off its form (profile): the first that is off its grammar or
/// missing, otherwise the first that is too many.
#[derive(Clone, Copy, Debug, PartialEq, Eq)]
pub struct BadWord {
    /// The place of the word in the line, from 1.
    pub place: usize,
    /// The word as it is in the line, up to a tab. It is empty if the word is missing. A word that is there
    /// and empty has the blemish `DoubledBlank`.
    pub text: CutText,
    /// What was expected at its place.
    pub expected: Expected,
    /// The mistake in the word that can't be seen when the line is shown.
    pub blemish: Option<Blemish>,
}

impl BadWord {
    /// The first wrong word of a line that is off its form. No caller asks this for a line that has a form.
    /// For such a line the word after the last is reported as missing.
    pub(crate) fn of(line: &[u8]) -> BadWord {
        if line.is_empty() {
            return BadWord::missing(1, Expected::Line);
        }
        let form = form_of(line);
        let mut rest = Some(line);
        for (before, expected) in form.iter().enumerate() {
            let Some(text) = rest else {
                return BadWord::missing(before + 1, *expected);
            };
            let (word, more) = next_word(text);
            if !expected.reads(word) {
                return BadWord::at(before + 1, word, *expected, more.is_none());
            }
            rest = more;
        }
        BadWord::behind(form.len() + 1, rest)
    }

    /// The first word that is too many: the first of `rest`.
    fn behind(place: usize, rest: Option<&[u8]>) -> BadWord {
        match rest {
            Some(text) => {
                let (word, more) = next_word(text);
                BadWord::at(place, word, Expected::NoMore, more.is_none())
            }
            None => BadWord::missing(place, Expected::NoMore),
        }
    }

    /// A word that is off its grammar, or too many.
    fn at(place: usize, word: &[u8], expected: Expected, is_last: bool) -> BadWord {
        BadWord {
            place,
            text: shown_text(word, expected == Expected::Key),
            expected,
            blemish: Blemish::of(word, place == 1, is_last),
        }
    }

    /// A word that is missing.
    fn missing(place: usize, expected: Expected) -> BadWord {
        BadWord {
            place,
            text: CutText::of(b""),
            expected,
            blemish: None,
        }
    }

    /// Whether the word is missing.
    pub fn is_missing(&self) -> bool {
        self.text.is_empty() && self.blemish.is_none()
    }
}

/// A word as it is shown: only up to a tab, because a key may follow. If it is a key, only its length is
/// told.
fn shown_text(word: &[u8], is_key: bool) -> CutText {
    if is_key {
        return CutText::of(word);
    }
    match word.iter().position(|byte| *byte == b'\t') {
        Some(tab) => CutText::beginning(&word[..tab + 1]),
        None => CutText::of(word),
    }
}

/// The next word of a text, and the words after it, if there are any.
fn next_word(text: &[u8]) -> (&[u8], Option<&[u8]>) {
    match split_word(text) {
        Some((word, more)) => (word, Some(more)),
        None => (text, None),
    }
}

/// The text tells which word it is, what is there, what was expected, and the word's blemish: `word 4
/// "party": expected one of parties, ..`. If it is a key, only its length is told. The text has no line
/// end.
impl fmt::Display for BadWord {
    fn fmt<W: fmt::Write>(&self, f: &mut fmt::Formatter<W>) -> fmt::Result {
        write_expected(f, self)?;
        match self.blemish {
            Some(blemish) => write!(f, "; {}", blemish.text()),
            None => Ok(()),
        }
    }
}

/// Writes which word it is, what is there, and what was expected.
fn write_expected<W: fmt::Write>(f: &mut fmt::Formatter<W>, off: &BadWord) -> fmt::Result {
    let (place, text, expected) = (off.place, &off.text, off.expected.text());
    if off.expected == Expected::Line {
        write!(f, "is empty: a line has {expected}")
    } else if off.is_missing() {
        write!(f, "word {place} is missing: expected {expected}")
    } else if off.expected == Expected::NoMore {
        write!(f, "word {place} {text} is one too many")
    } else if off.expected == Expected::Key {
        write!(
            f,
            "word {place} of {} bytes: expected {expected}",
            text.len()
        )
    } else {
        write!(f, "word {place} {text}: expected {expected}")
    }
}
