//! Texts from outside, cut so that one line can show them.

use std::fmt;

/// The most bytes of a text that are kept.
const MOST_BYTES: usize = 40;

/// The first bytes of a text as they are, at most 40, how many bytes it has, and whether more follow.
#[derive(Clone, Copy, Debug, PartialEq, Eq)]
pub struct CutText {
    bytes: [u8; MOST_BYTES],
    len: usize,
    is_cut: bool,
}

impl CutText {
    /// The text of these bytes, cut after the first 40.
    pub fn of(bytes: &[u8]) -> CutText {
        let kept = bytes.len().min(MOST_BYTES);
        let mut first = [0; MOST_BYTES];
        first[..kept].copy_from_slice(&bytes[..kept]);
        CutText {
            bytes: first,
            len: bytes.len(),
            is_cut: kept < bytes.len(),
        }
    }

    /// A text that begins with these bytes and whose other bytes are not shown.
    pub fn beginning(bytes: &[u8]) -> CutText {
        CutText {
            is_cut: true,
            ..CutText::of(bytes)
        }
    }

    /// How many bytes it was made from.
    pub fn len(&self) -> usize {
        self.len
    }

    /// Whether it was made from no bytes.
    pub fn is_empty(&self) -> bool {
        self.len == 0
    }
}

/// The text is in double quotes, with `..` in the place of what was cut off. A byte that is not printable
/// ASCII is shown as `\r`, `\n`, `\t` or by its number, as `\xE2`. A double quote or a backslash has a
/// backslash before it.
impl fmt::Display for CutText {
    fn fmt<W: fmt::Write>(&self, f: &mut fmt::Formatter<W>) -> fmt::Result {
        f.write_str("\"")?;
        for byte in self.bytes.iter().take(self.len) {
            write_byte(f, *byte)?;
        }
        f.write_str(if self.is_cut { "..\"" } else { "\"" })
    }
}

/// Writes a byte of a text in double quotes.
fn write_byte<W: fmt::Write>(f: &mut fmt::Formatter<W>, byte: u8) -> fmt::Result {
    match byte {
        b'\r' => f.write_str("\\r"),
        b'\n' => f.write_str("\\n"),
        b'\t' => f.write_str("\\t"),
        b'"' => f.write_str("\\\""),
        b'\\' => f.write_str("\\\\"),
        b' '..=b'~' => write!(f, "{}", char::from(byte)),
        _ => write!(f, "\\x{byte:02X}"),
    }
}
