//! The text that tells a rejection.

ghost use Rattle.std.specs.Prelude.{◌≡◌, Some};
ghost use Rattle.std.specs.Fmt.{DisplaysOnOk};
ghost use Rattle.hh_period.specs.RejectionText.{input_ending, input_word, rejection_text};

use crate::rejection::{Input, Rejection};
use std::error::Error;
use std::fmt;

/// The text of the refusal, and ` in <input>` if it names an input.
impl fmt::Display for Rejection {
    ghost output = { λ e. Some (rejection_text e) };

    fn fmt<W: fmt::Write>(&self, f: &mut fmt::Formatter<W>) -> fmt::Result {
        write!(f, "{}", self.fault)?;
        write_ending(f, self.input)
    }
}

impl Error for Rejection {}

/// The word for an input in a refusal's line.
fn word_of(input: Input) -> &'static str
    ensures { result.now ≡ input_word input }
{
    match input {
        Input::Meter => "meter",
        Input::Contracts => "contracts",
        Input::Price => "price",
    }
}

/// The ending that names an input.
fn write_ending<W: fmt::Write>(f: &mut fmt::Formatter<W>, input: Option<Input>) -> fmt::Result
    ensures { DisplaysOnOk W.write_str_gives f.old result (Some (input_ending input)) f.new }
{
    match input {
        Some(input) => write!(f, " in {}", word_of(input)),
        None => Ok(()),
    }
}
