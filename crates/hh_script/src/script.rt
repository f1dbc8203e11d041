//! Scripts. A script is read whole before any of its lines is run.

ghost use Rattle.std.specs.Prelude.{◌≡◌, ◌<◌, ◌∷◌, Some, length, map, IfErr, IfOk};
ghost use Rattle.hh_script.specs.Steps.{step_of};
ghost use Rattle.hh_script.specs.Script.{lines_of, script_value};
ghost use Rattle.hh_script.specs.Faults.{IsFaultOf};

use crate::bad_word::BadWord;
use crate::script_line::ScriptLine;
use crate::words::place_of;
use std::alloc::Global;

/// Why a script is not read.
#[derive(Clone, Copy, Debug, PartialEq, Eq)]
pub enum ScriptFault {
    /// The first line that is off its form, numbered from 1, and its first wrong word.
    BadLine { line: usize, word: BadWord },
    /// Memory was refused.
    Memory,
}

/// The lines of a script (profile). Each line is one command. Its words are separated by single blanks.
/// Each line ends with LF, which the last may lack. A script of no bytes has no lines.
///
/// # Errors
///
/// `BadLine` with the number of the first line that is off its form or has a word off its grammar, and with the
/// first such word. An empty line is off its form. `Memory` may take the place of any answer.
pub fn read_script<'a>(alloc: Global, bytes: &'a [u8]) -> Result<Vec<ScriptLine<'a>>, ScriptFault>
    ensures lines { IfOk result (λ lines.
        script_value bytes.entry.now ≡ Some (map step_of lines.items)) }
    ensures bad_line { IfErr result (IsFaultOf bytes.entry.now) }
{
    let mut lines = Vec::new(alloc);
    let mut rest = bytes;
    while !rest.is_empty() {
        let (line, more) = split_line(rest);
        match ScriptLine::read(line) {
            Some(line) => {
                if lines.push(line).is_err() {
                    return Err(ScriptFault::Memory);
                }
            }
            None => {
                return Err(ScriptFault::BadLine {
                    line: lines.len() + 1,
                    word: BadWord::of(line),
                });
            }
        }
        rest = more;
    }
    Ok(lines)
}

/// The first line of some bytes, and what follows it.
fn split_line(bytes: &[u8]) -> (&[u8], &[u8])
    requires { 0 < length bytes.now }
    ensures lines { lines_of bytes.now ≡ result.0.now ∷ lines_of result.1.now }
    ensures shorter { length result.1.now < length bytes.now }
{
    match place_of(bytes, b'\n') {
        Some(end) => (&bytes[..end], &bytes[end + 1..]),
        None => (bytes, &bytes[bytes.len()..]),
    }
}
