//! Explanations on one line, whatever a path contains.

use std::alloc::{AllocError, Global};

/// A text on one line. Control characters, which a path may have, are shown as `\n`, `\r`, `\t` or by their
/// number, as `\x07`.
pub fn one_line(alloc: Global, text: &str) -> Result<String, AllocError> {
    let mut line = String::new(alloc);
    for letter in text.chars() {
        push_shown(&mut line, letter)?;
    }
    Ok(line)
}

/// Adds a character, as itself if it can be shown.
fn push_shown(line: &mut String, letter: char) -> Result<(), AllocError> {
    match letter {
        '\n' => line.push_str("\\n"),
        '\r' => line.push_str("\\r"),
        '\t' => line.push_str("\\t"),
        _ if letter.is_control() => write!(line, "\\x{:02X}", u32::from(letter)),
        _ => line.push(letter),
    }
}
