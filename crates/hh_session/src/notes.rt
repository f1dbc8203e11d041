//! Listeners for what came of each line of a script, beside what is written for it.

ghost use Rattle.std.specs.Prelude.{◌≡◌};
ghost use Rattle.hh_desk.specs.Refusals.{CountsUp};
ghost use Rattle.hh_desk.specs.Views.{IsSure};

use hh_desk::{Office, Tables, Told};
use hh_host::Host;
use hh_names::Fault;
use hh_requests::Reply;
use hh_script::ScriptLine;
use std::alloc::Global;

/// What came of a line of a script.
#[derive(Clone, Copy, Debug, PartialEq, Eq)]
pub enum Came {
    /// It was done. If it loaded a file, `late` of the file's rows were late.
    Done { late: u32 },
    /// The office refused.
    Refused(Fault),
    /// The line's file can't be read.
    Unreadable,
    /// Nothing listens on the line's port.
    NoSocket,
}

impl Came {
    ghost use Rattle.std.specs.Prelude.{◌≡◌, not};
    ghost use Rattle.hh_desk.specs.Promises.{is_refused};
    ghost use Rattle.hh_session.specs.Came.{was_done};
    ghost use Rattle.hh_session.specs.Lines.{told_done};

    /// What came of a load or of a run.
    pub(crate) fn of(told: &Told) -> Came
        ensures { was_done result ≡ told_done told.now }
    {
        match told {
            Told::Replied(reply) => Came::of_reply(reply),
            Told::Unreadable => Came::Unreadable,
        }
    }

    /// What came of a reply.
    fn of_reply(reply: &Reply) -> Came
        ensures { was_done result ≡ not (is_refused reply.now) }
    {
        match reply {
            Reply::Loaded(loaded) => Came::Done { late: loaded.late },
            Reply::Refused(fault) => Came::Refused(*fault),
            Reply::Ran { .. }
            | Reply::Account(_)
            | Reply::Balance { .. }
            | Reply::Contracts(_)
            | Reply::Runs(_) => Came::Done { late: 0 },
        }
    }

    /// Whether the line was done.
    pub fn was_done(&self) -> bool
        ensures { result ≡ was_done self.now }
    {
        match self {
            Came::Done { .. } => true,
            Came::Refused(_) | Came::Unreadable | Came::NoSocket => false,
        }
    }
}

/// A listener for what came of each line of a script. It may read the office, and leaves it as it is.
pub trait Notes {
    /// Called after a line has run and what it writes was written. Lines are numbered from 1.
    fn hear<T: Tables, H: Host>(
        &mut self,
        alloc: Global,
        office: &mut Office<'_, T>,
        host: &H,
        number: usize,
        line: &ScriptLine<'_>,
        came: Came,
    )
        ensures same { IsSure T.is_open office.new → office.new.seen ≡ office.old.seen }
        ensures refusals_up { IsSure T.is_open office.new
            → CountsUp T.refusals office.old office.new }
        ensures sure { IsSure T.is_open office.new → IsSure T.is_open office.old };
}

/// Ignores what it is told.
#[derive(Clone, Copy, Debug)]
pub struct NoNotes;

impl Notes for NoNotes {
    fn hear<T: Tables, H: Host>(
        &mut self,
        _alloc: Global,
        _office: &mut Office<'_, T>,
        _host: &H,
        _number: usize,
        _line: &ScriptLine<'_>,
        _came: Came,
    ) {}
}
