//! Why the program ends before it is done.

ghost use Rattle.std.specs.Prelude.{◌≤◌};

use hh_names::{Fault, Refusal};
use hh_store::StoreFault;
use sqlite::{Error, ErrorCode};
use std::alloc::{AllocError, AllocFailed};
use std::io;
use std::io::{Eprint, ErrorKind};

const USAGE: &str =
    "usage: hh_bench settle TIMES | read KIND FILE TIMES | load KIND FILE [KIND FILE ..] | office DB SCRIPT [small] [OPERATOR-KEY LEAD-MINUTES] | answer KIND [MOMENT FILE ..] | log DB [MOMENT FILE ..] | refuse WAY HOW STORE [MOMENT FILE ..]";

/// Why the program ends before it is done.
#[derive(Clone, Copy, Debug)]
pub(crate) enum TrialStop {
    /// The words form no command.
    Words,
    /// A file, a period, a database or memory was refused.
    Refused(Refusal),
    /// The generated period may not be settled.
    NotReady,
    /// A file, standard input or the clock cannot be read.
    Input,
    /// Standard output or standard error cannot be written.
    Output,
    /// A call was not as it should be, counted from 1, when a growth was refused, counted from 1.
    Broken {
        what: Wrong,
        call: usize,
        growth: u32,
    },
}

/// What was not as it should be: what came of a call, or which tables are left.
#[derive(Clone, Copy, Debug)]
pub(crate) enum Wrong {
    MemoryRefusedToTheTwin,
    MemoryRefusedWithoutEnd,
    OtherwiseWithAmpleMemory,
    RefusalToldThoughNoneWas,
    AnsweredButTablesNotAfterIt,
    WrongAnswer,
    RefusedButTablesNotBeforeIt,
}

impl TrialStop {
    /// Memory was refused.
    pub(crate) fn no_memory() -> TrialStop {
        TrialStop::Refused(Refusal::Memory)
    }
}

impl From<AllocError> for TrialStop {
    fn from(_error: AllocError) -> TrialStop {
        TrialStop::no_memory()
    }
}

impl<T: Drop> From<AllocFailed<T>> for TrialStop {
    fn from(_error: AllocFailed<T>) -> TrialStop {
        TrialStop::no_memory()
    }
}

impl From<Fault> for TrialStop {
    fn from(fault: Fault) -> TrialStop {
        TrialStop::Refused(fault.refusal)
    }
}

impl From<io::Error> for TrialStop {
    fn from(error: io::Error) -> TrialStop {
        match error.kind() {
            ErrorKind::OutOfMemory => TrialStop::no_memory(),
            _ => TrialStop::Input,
        }
    }
}

impl From<Error> for TrialStop {
    fn from(error: Error) -> TrialStop {
        TrialStop::Refused(refusal_of(error))
    }
}

/// How the office calls what a database refuses.
pub(crate) fn refusal_of(error: Error) -> Refusal {
    match error {
        Error::SqliteFailure(ErrorCode::OutOfMemory) => Refusal::Memory,
        _ => Refusal::Store,
    }
}

impl From<StoreFault> for TrialStop {
    fn from(fault: StoreFault) -> TrialStop {
        TrialStop::from(Fault::from(fault))
    }
}

/// Tells on standard error why the program ends, and gives its exit status.
pub(crate) fn tell<R: Eprint>(rt: &R, stop: TrialStop) -> u8
    ensures { result ≤ 2 }
{
    let _told = match stop {
        TrialStop::Words => eprintln!(rt; "{USAGE}"),
        TrialStop::Refused(refusal) => {
            eprintln!(rt; "refused {} {}", refusal.number(), refusal.name())
        }
        TrialStop::NotReady => eprintln!(rt; "fault period"),
        TrialStop::Input => eprintln!(rt; "fault input"),
        TrialStop::Output => eprintln!(rt; "fault output"),
        TrialStop::Broken { what, call, growth } => {
            eprintln!(rt; "call {call} growth {growth}: {what:?}\nfault promise")
        }
    };
    match stop {
        TrialStop::Words => 2,
        _ => 1,
    }
}
