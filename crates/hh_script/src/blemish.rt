//! Mistakes in a line that can't be seen when the line is shown.

/// A mistake in a word that can't be seen when the line is shown.
#[derive(Clone, Copy, Debug, PartialEq, Eq)]
pub enum Blemish {
    /// The last word of the line ends with a carriage return.
    CarriageReturn,
    /// The line begins with the bytes EF BB BF.
    ByteOrderMark,
    /// The word has a tab.
    Tab,
    /// The word is empty: a blank is beside another, or at an end of the line.
    DoubledBlank,
}

impl Blemish {
    /// The blemish of a word, if it has one. If it has several, this is the first of: empty, a byte order
    /// mark, a tab, a carriage return.
    pub(crate) fn of(word: &[u8], is_first: bool, is_last: bool) -> Option<Blemish> {
        if word.is_empty() {
            Some(Blemish::DoubledBlank)
        } else if is_first && word.starts_with(b"\xEF\xBB\xBF") {
            Some(Blemish::ByteOrderMark)
        } else if word.contains(&b'\t') {
            Some(Blemish::Tab)
        } else if is_last && word.ends_with(b"\r") {
            Some(Blemish::CarriageReturn)
        } else {
            None
        }
    }

    /// What the blemish is, in words.
    pub fn text(self) -> &'static str {
        match self {
            Blemish::CarriageReturn => {
                "the word ends with a carriage return: lines end with LF alone"
            }
            Blemish::ByteOrderMark => "the line begins with a byte order mark",
            Blemish::Tab => "it has a tab: words are parted by single blanks",
            Blemish::DoubledBlank => "words are parted by single blanks",
        }
    }
}
