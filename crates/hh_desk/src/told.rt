//! What came of what was asked at the desk.

use hh_names::{Fault, Refusal};
use hh_requests::Reply;

/// What came of a load or of a run.
#[derive(Debug, Drop)]
pub enum Told {
    /// The office replied.
    Replied(Reply),
    /// The file cannot be read, and the office was not asked.
    Unreadable,
}

impl Told {
    ghost use Rattle.std.specs.Prelude.{◌≡◌};
    ghost use Rattle.hh_desk.specs.Doing.{no_memory};

    /// Memory was refused.
    pub(crate) fn no_memory() -> Told
        ensures { result ≡ no_memory }
    {
        Told::Replied(Reply::Refused(Fault::of(Refusal::Memory)))
    }
}
