//! Each call, with each growth of memory refused in turn, until none is refused.

use crate::calls::Call;
use crate::contents::contents_of;
use crate::stop::{TrialStop, Wrong};
use crate::stores::{InMemory, Store};
use crate::ways::{Attempt, Way, tried};
use hh_devices::{StreamSink, write_whole};
use hh_office::Office;
use hh_store::Tables;
use hh_time::london;

/// Up to this number each growth is refused, and after it each `STEP`th.
const EACH: u32 = 300;

const STEP: u32 = 61;

/// More tries than any call needs.
const MOST_TRIES: usize = 100_000;

/// What is tried.
#[derive(Drop)]
pub(crate) struct Plan {
    pub(crate) way: Way,
    /// The folder of paths that tell the library what to refuse.
    pub(crate) how: &'static str,
    pub(crate) calls: Vec<Call>,
}

/// What should come of a call.
#[derive(Drop)]
struct Right {
    answers: Vec<Vec<u8>>,
    /// What the tables tell before and after it.
    before: Vec<u8>,
    after: Vec<u8>,
}

/// What came of a call during which a growth was refused.
#[derive(Clone, Copy)]
enum Outcome {
    /// The right answer, and no growth was refused.
    Answered,
    /// It was told that memory was refused, and the tables are those before the call.
    Refused,
    /// The right answer to a call that changes nothing, although a growth was refused.
    DoneWithout,
    /// The tables are those after the call, although a growth was refused.
    Moved,
}

/// What is tried, and the tables over which it is tried.
struct Trial<'a, S: Store> {
    rt: &'a HostRuntime,
    store: &'a S,
    plan: &'a Plan,
    /// There are none only while an office has them.
    tables: Option<S::Tables>,
    /// What the tables told when they were read last, and their stamp at that time.
    contents: Vec<u8>,
    stamp: Option<Vec<u8>>,
}

/// Tries the calls of a plan one after the other.
pub(crate) fn sweep_all<S: Store>(
    rt: &HostRuntime,
    store: &S,
    plan: &Plan,
) -> Result<(), TrialStop> {
    let twin = InMemory.begin(rt)?;
    let mut trial = Trial {
        rt,
        store,
        plan,
        tables: Some(store.begin(rt)?),
        contents: Vec::new(rt.alloc()),
        stamp: None,
    };
    let swept = trial.sweep_each(twin);
    let Trial {
        rt: _,
        store: _,
        plan: _,
        tables,
        contents: _contents,
        stamp: _stamp,
    } = trial;
    let closed = ended(store, tables);
    swept?;
    closed
}

impl<S: Store> Trial<'_, S> {
    /// Tries each call. What should come of it comes of the same call over tables in memory, the twin.
    fn sweep_each<T: Tables + Drop>(&mut self, mut twin: T) -> Result<(), TrialStop> {
        for place in 0..self.plan.calls.len() {
            let (right, behind) = self.right_of(place, twin);
            twin = behind;
            self.sweep(place, &right?)?;
        }
        Ok(())
    }

    /// What should come of the call at a place, by tables in memory. They are returned as they are after it.
    fn right_of<T: Tables>(&self, place: usize, mut twin: T) -> (Result<Right, TrialStop>, T) {
        let before = contents_of(self.rt.alloc(), &mut twin, &self.plan.calls);
        let (came, mut twin) = made_over(self.rt, self.plan, place, 0, twin);
        let after = contents_of(self.rt.alloc(), &mut twin, &self.plan.calls);
        (right_by(place, came, before, after), twin)
    }

    /// Makes the call at a place with each growth refused in turn, until none is refused, and prints how
    /// often which outcome came of it.
    fn sweep(&mut self, place: usize, right: &Right) -> Result<(), TrialStop> {
        let (mut refused, mut done_without, mut moved) = (0u32, 0u32, 0u32);
        let mut growth = 1;
        for _ in 0..MOST_TRIES {
            match self.outcome(place, growth, right)? {
                Outcome::Answered => {
                    self.again(place, right)?;
                    let call = place.saturating_add(1);
                    let head = format!(in self.rt.alloc();
                        "call {call} refused {refused} done-without {done_without} moved {moved} bytes "
                    )?;
                    return print_answers(self.rt, head.as_str(), &right.answers);
                }
                Outcome::Refused => refused = refused.saturating_add(1),
                Outcome::DoneWithout => done_without = done_without.saturating_add(1),
                Outcome::Moved => {
                    moved = moved.saturating_add(1);
                    self.rebuild(place, right)?;
                }
            }
            growth = growth.saturating_add(if growth < EACH { 1 } else { STEP });
        }
        Err(wrong(Wrong::MemoryRefusedWithoutEnd, place, growth))
    }

    /// The outcome of the call at a place, with this growth refused.
    fn outcome(&mut self, place: usize, growth: u32, right: &Right) -> Result<Outcome, TrialStop> {
        let came = self.made(place, growth)?;
        self.see()?;
        match outcome_of(self.plan.way, &came, right, &self.contents) {
            Ok(outcome) => Ok(outcome),
            Err(what) => Err(wrong(what, place, growth)),
        }
    }

    /// What comes of the call at a place, with this growth refused.
    fn made(&mut self, place: usize, growth: u32) -> Result<Attempt, TrialStop> {
        let Some(tables) = self.tables.take() else {
            return Err(TrialStop::Words);
        };
        let (came, tables) = made_over(self.rt, self.plan, place, growth, tables);
        ended(self.store, self.tables.replace(tables))?;
        came
    }

    /// Reads what the tables tell, unless their stamp says that they are as they were.
    fn see(&mut self) -> Result<(), TrialStop> {
        let stamp = self.store.stamp(self.rt)?;
        if stamp.is_some() && stamp == self.stamp {
            return Ok(());
        }
        if let Some(tables) = &mut self.tables {
            self.contents = contents_of(self.rt.alloc(), tables, &self.plan.calls)?;
            self.stamp = stamp;
        }
        Ok(())
    }

    /// Makes the call at a place again, with ample memory. It must get the same answer and change nothing
    /// more. What the tables tell is read in any case.
    fn again(&mut self, place: usize, right: &Right) -> Result<(), TrialStop> {
        self.stamp = None;
        match self.outcome(place, 0, right)? {
            Outcome::Answered => Ok(()),
            _ => Err(wrong(Wrong::OtherwiseWithAmpleMemory, place, 0)),
        }
    }

    /// Makes the tables before the call at a place again, because the call has changed these. First the
    /// call is made again, and must get the right answer.
    fn rebuild(&mut self, place: usize, right: &Right) -> Result<(), TrialStop> {
        self.again(place, right)?;
        ended(self.store, self.tables.take())?;
        let tables = self.store.begin(self.rt)?;
        ended(self.store, self.tables.replace(tables))?;
        for earlier in 0..place {
            self.made(earlier, 0)?;
        }
        Ok(())
    }
}

/// What should come of the call at a place, by what came of it and what the tables told before and after it.
fn right_by(
    place: usize,
    came: Result<Attempt, TrialStop>,
    before: Result<Vec<u8>, TrialStop>,
    after: Result<Vec<u8>, TrialStop>,
) -> Result<Right, TrialStop> {
    let came = came?;
    if came.refused || came.tells_refusal() {
        return Err(wrong(Wrong::MemoryRefusedToTheTwin, place, 0));
    }
    let Attempt { answers, .. } = came;
    Ok(Right {
        answers,
        before: before?,
        after: after?,
    })
}

/// Drops or closes tables, if there are any.
fn ended<S: Store>(store: &S, tables: Option<S::Tables>) -> Result<(), TrialStop> {
    match tables {
        Some(tables) => store.end(tables),
        None => Ok(()),
    }
}

/// What comes of the call at a place over tables, with this growth refused. The tables are returned.
fn made_over<T: Tables>(
    rt: &HostRuntime,
    plan: &Plan,
    place: usize,
    growth: u32,
    tables: T,
) -> (Result<Attempt, TrialStop>, T) {
    let mut office = Office::new(rt.alloc(), tables, london());
    let refusing = format!(in rt.alloc(); "{}/{growth}", plan.how);
    let came = match (refusing, plan.calls.get(place)) {
        (Ok(refusing), Some(call)) => tried(rt, &mut office, plan.way, call, refusing.as_str()),
        _ => Err(TrialStop::no_memory()),
    };
    (came, office.into_tables())
}

/// Prints the right answers to a call, each behind a head and its number of bytes.
fn print_answers(rt: &HostRuntime, head: &str, answers: &[Vec<u8>]) -> Result<(), TrialStop> {
    let mut out = StreamSink::new(rt.stdout());
    for answer in answers {
        let head = format!(in rt.alloc(); "{head}{}\n", answer.len())?;
        let written = write_whole(&mut out, head.as_bytes());
        written.ok().ok_or(TrialStop::Output)?;
        write_whole(&mut out, answer).ok().ok_or(TrialStop::Output)?;
    }
    Ok(())
}

/// Something was not as it should be.
fn wrong(what: Wrong, place: usize, growth: u32) -> TrialStop {
    TrialStop::Broken {
        what,
        call: place.saturating_add(1),
        growth,
    }
}

/// The outcome of a call that left these contents, or what is wrong with it.
fn outcome_of(way: Way, came: &Attempt, right: &Right, contents: &[u8]) -> Result<Outcome, Wrong> {
    let is_before = contents == right.before.as_slice();
    let is_after = contents == right.after.as_slice();
    let is_partly_right = came.is_partly_right(&right.answers);
    let is_right_or_refused = came.is_right_or_refused(&right.answers);
    if !came.refused && came.tells_refusal() {
        return Err(Wrong::RefusalToldThoughNoneWas);
    }
    if came.answers == right.answers {
        return match (is_after, came.refused, is_before) {
            (false, _, _) => Err(Wrong::AnsweredButTablesNotAfterIt),
            (true, false, _) => Ok(Outcome::Answered),
            (true, true, true) => Ok(Outcome::DoneWithout),
            (true, true, false) => Ok(Outcome::Moved),
        };
    }
    // A client got no reply, or one of two requests was answered.
    let may_have_moved = match way {
        Way::Serve => came.answers.is_empty(),
        Way::Together => is_right_or_refused && is_partly_right,
        Way::Handle => false,
    };
    if may_have_moved && is_after && !is_before {
        return Ok(Outcome::Moved);
    }
    if !came.answers.is_empty() && !is_right_or_refused {
        return Err(Wrong::WrongAnswer);
    }
    if is_before && (!is_partly_right || is_after) {
        return Ok(Outcome::Refused);
    }
    Err(Wrong::RefusedButTablesNotBeforeIt)
}
