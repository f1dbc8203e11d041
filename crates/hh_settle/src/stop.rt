//! Why a command stops, and with which exit status.

ghost use Rattle.std.specs.Prelude.{◌≡◌};
ghost use Rattle.hh_period.specs.Outcome.{memory_rejection};
ghost use Rattle.hh_settle.specs.Stops.{stop_status};

use hh_host::ClockFailed;
use hh_inputs::InputFault;
use hh_kept_office::{ErrandStop, LinesStop, PathStop, ScriptPathStop, ScriptStop};
use hh_names::{Fault, Refusal};
use hh_period::{PeriodFault, Rejection};
use hh_script::BadWord;
use std::alloc::AllocError;

/// The exit status of a command that was refused, or that met a fault of a file, a port, the clock or the
/// output.
const REFUSED: u8 = 1;

/// The exit status of wrong words, of a line of a script off its form, or of a call for help.
pub(crate) const WRONG_WORDS: u8 = 2;

/// Why a command stops. One line on the standard error tells it. For `BadLine` a second line tells the
/// word, if there is memory for it.
#[derive(Clone, Copy, Debug, PartialEq, Eq)]
pub enum Stop {
    /// What the command was given is refused.
    Refused(Rejection),
    /// A file can't be read.
    File,
    /// The output failed.
    Output,
    /// An office was to be made at a path where there is something already.
    Exists,
    /// There is nothing at the path of an office.
    NoFile,
    /// The port can't be listened on.
    NoSocket,
    /// The machine's clock tells no moment.
    NoClock,
    /// A line of a script is off its form, and `word` is its first word that is.
    BadLine { line: usize, word: BadWord },
    /// A line of a strict script was refused or met a fault.
    Line { number: usize },
}

impl Stop {
    pub(crate) fn no_memory() -> Stop
        ensures { result ≡ Stop.Refused memory_rejection }
    {
        Stop::Refused(Rejection::of(Refusal::Memory))
    }

    /// The exit status of a command that stops for this reason.
    pub(crate) fn status(&self) -> u8
        ensures { result ≡ stop_status self.now }
    {
        match self {
            Stop::BadLine { .. } => WRONG_WORDS,
            Stop::Refused(_)
            | Stop::File
            | Stop::Output
            | Stop::Exists
            | Stop::NoFile
            | Stop::NoSocket
            | Stop::NoClock
            | Stop::Line { .. } => REFUSED,
        }
    }
}

impl From<InputFault> for Stop {
    ghost use Rattle.hh_settle.specs.Stopping.{input_stop};

    ghost from_gives = { λ fault stop. stop ≡ input_stop fault };

    fn from(fault: InputFault) -> Stop {
        match fault {
            InputFault::Unreadable => Stop::File,
            InputFault::Memory => Stop::no_memory(),
        }
    }
}

impl From<PeriodFault> for Stop {
    ghost use Rattle.hh_settle.specs.Stopping.{period_stop};

    ghost from_gives = { λ fault stop. stop ≡ period_stop fault };

    fn from(fault: PeriodFault) -> Stop {
        match fault {
            PeriodFault::Refused(rejection) => Stop::Refused(rejection),
            PeriodFault::Write => Stop::Output,
        }
    }
}

impl From<ScriptStop> for Stop {
    ghost use Rattle.hh_settle.specs.Stopping.{script_stop};

    ghost from_gives = { λ why stop. stop ≡ script_stop why };

    fn from(why: ScriptStop) -> Stop {
        match why {
            ScriptStop::File => Stop::File,
            ScriptStop::BadLine { line, word } => Stop::BadLine { line, word },
            ScriptStop::Refused(fault) => Stop::Refused(Rejection { fault, input: None }),
            ScriptStop::Early(LinesStop::Output) => Stop::Output,
            ScriptStop::Early(LinesStop::Line { number }) => Stop::Line { number },
        }
    }
}

impl From<PathStop> for Stop {
    ghost use Rattle.hh_settle.specs.Tasks.{path_stop};

    ghost from_gives = { λ why stop. stop ≡ path_stop why };

    fn from(why: PathStop) -> Stop {
        match why {
            PathStop::Exists => Stop::Exists,
            PathStop::NoFile => Stop::NoFile,
            PathStop::Errand(ErrandStop::Refused(fault)) => {
                Stop::Refused(Rejection { fault, input: None })
            }
            PathStop::Errand(ErrandStop::Unreadable) => Stop::File,
            PathStop::Errand(ErrandStop::NoSocket) => Stop::NoSocket,
            PathStop::Errand(ErrandStop::Output) => Stop::Output,
        }
    }
}

impl From<ScriptPathStop> for Stop {
    ghost use Rattle.hh_settle.specs.Tasks.{script_path_stop};

    ghost from_gives = { λ why stop. stop ≡ script_path_stop why };

    fn from(why: ScriptPathStop) -> Stop {
        match why {
            ScriptPathStop::NoFile => Stop::NoFile,
            ScriptPathStop::Unopened(fault) => Stop::Refused(Rejection {
                fault: Fault::from(fault),
                input: None,
            }),
            ScriptPathStop::Script(why) => Stop::from(why),
        }
    }
}

impl From<ClockFailed> for Stop {
    ghost use Rattle.hh_settle.specs.declared.stop.Stop.TheVariants.{NoClock};

    ghost from_gives = { λ _ stop. stop ≡ NoClock };

    fn from(_failed: ClockFailed) -> Stop {
        Stop::NoClock
    }
}

impl From<AllocError> for Stop {
    ghost use Rattle.hh_period.specs.Outcome.{memory_rejection};
    ghost use Rattle.hh_settle.specs.declared.stop.Stop.TheVariants.{Refused};

    ghost from_gives = { λ _ stop. stop ≡ Refused memory_rejection };

    fn from(_error: AllocError) -> Stop {
        Stop::no_memory()
    }
}
