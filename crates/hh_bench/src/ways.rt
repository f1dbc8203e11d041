//! Calls of an office, with a growth of memory refused in each, and what comes of them.

use crate::calls::{Asked, Call};
use crate::stop::TrialStop;
use hh_devices::{MemorySink, MemorySource};
use hh_http_replies::write_reply;
use hh_http_serve::{ServeFault, Served, serve_one};
use hh_names::Refusal;
use hh_office::{Office, ReportStop};
use hh_requests::{Reply, Report, Request};
use hh_store::Tables;
use hh_wire::Routes;
use std::alloc::Global;
use std::fs;
use std::io::ErrorKind;

/// The call of the office by which requests are tried.
#[derive(Clone, Copy)]
pub(crate) enum Way {
    /// By `handle`, and by the calls for reports.
    Handle,
    /// By `serve_one`.
    Serve,
    /// By `run_all`, with the same request twice.
    Together,
}

/// More bytes than any reply or report of these calls has.
pub(crate) const ROOM: usize = 65_536;

/// The reply that tells that memory was refused.
const NO_MEMORY: &[u8] =
    b"HTTP/1.1 503 Service Unavailable\r\nContent-Type: application/json\r\nContent-Length: 30\r\n\
    Connection: close\r\n\r\n{\"name\":\"Memory\",\"refused\":90}";

/// What stands behind the beginning of a report that was refused memory. No report contains it.
const CUT: &[u8] = b"\0cut";

/// What came of a call.
#[derive(Drop)]
pub(crate) struct Attempt {
    /// The bytes of each reply or report. There are none if the call gave up because memory was refused.
    pub(crate) answers: Vec<Vec<u8>>,
    /// Whether a growth of memory was refused during the call.
    pub(crate) refused: bool,
}

impl Attempt {
    /// Whether each answer is the right one or tells that memory was refused.
    pub(crate) fn is_right_or_refused(&self, right: &[Vec<u8>]) -> bool {
        let mut pairs = self.answers.iter().zip(right);
        self.answers.len() == right.len() && pairs.all(|pair| is_right_or_refused(pair.0, pair.1))
    }

    /// Whether at least one answer is the right one.
    pub(crate) fn is_partly_right(&self, right: &[Vec<u8>]) -> bool {
        let mut pairs = self.answers.iter().zip(right);
        pairs.any(|pair| pair.0 == pair.1)
    }

    /// Whether any answer tells that memory was refused.
    pub(crate) fn tells_refusal(&self) -> bool {
        self.answers.is_empty() || self.answers.iter().any(|answer| is_refused(answer))
    }
}

/// Whether an answer tells that memory was refused.
fn is_refused(answer: &[u8]) -> bool {
    answer == NO_MEMORY || answer.ends_with(CUT)
}

/// Whether an answer is the right one or tells that memory was refused. Only a beginning of a report may
/// have been written then.
fn is_right_or_refused(answer: &[u8], right: &[u8]) -> bool {
    match answer.strip_suffix(CUT) {
        Some(beginning) => right.starts_with(beginning),
        None => answer == right || answer == NO_MEMORY,
    }
}

/// What comes of a call during which a growth of memory is refused, as the path `refusing` tells.
pub(crate) fn tried<T: Tables>(
    rt: &HostRuntime,
    office: &mut Office<'_, T>,
    way: Way,
    call: &Call,
    refusing: &str,
) -> Result<Attempt, TrialStop> {
    match (way, &call.asked) {
        (_, Asked::Report { key, report }) => reported(rt, office, key, report, refusing),
        (Way::Handle, Asked::Twice([(moment, request), _])) => {
            begin(rt, refusing);
            let reply = office.handle(*moment, request);
            let refused = was_refused(rt);
            one(told_by(rt.alloc(), &reply)?, refused)
        }
        (Way::Together, Asked::Twice(requests)) => together(rt, office, requests, refusing),
        (Way::Serve, _) | (_, Asked::NoRequest) => served(rt, office, call, refusing),
    }
}

/// What comes of a report.
fn reported<T: Tables>(
    rt: &HostRuntime,
    office: &mut Office<'_, T>,
    key: &[u8],
    report: &Report,
    refusing: &str,
) -> Result<Attempt, TrialStop> {
    let mut sink = MemorySink::with_room(rt.alloc(), ROOM)?;
    begin(rt, refusing);
    let done = match report {
        Report::Day(run) => office.report_day(key, run.date, run.kind, &mut sink),
        Report::Results(run) => office.report_results(key, run.date, run.kind, &mut sink),
        Report::Balances => office.report_balances(key, &mut sink),
    };
    let refused = was_refused(rt);
    let mut answer = Vec::from_slice(rt.alloc(), sink.taken())?;
    match done {
        Ok(()) => {}
        Err(ReportStop::Refused(fault)) if fault.refusal == Refusal::Memory => {
            answer.extend_from_slice(CUT)?;
        }
        Err(ReportStop::Refused(fault)) => {
            answer.extend_from_slice(&told_by(rt.alloc(), &Reply::Refused(fault))?)?;
        }
        Err(ReportStop::Write) => return Err(TrialStop::Output),
    }
    one(answer, refused)
}

/// What comes of requests that are run one after the other.
fn together<T: Tables>(
    rt: &HostRuntime,
    office: &mut Office<'_, T>,
    requests: &[(i64, Request)],
    refusing: &str,
) -> Result<Attempt, TrialStop> {
    begin(rt, refusing);
    let ran = office.run_all(requests);
    let refused = was_refused(rt);
    let mut answers = Vec::new(rt.alloc());
    if let Ok(replies) = ran {
        for reply in &replies {
            answers.push(told_by(rt.alloc(), reply)?)?;
        }
    }
    Ok(Attempt { answers, refused })
}

/// What comes of bytes that a client sends.
fn served<T: Tables>(
    rt: &HostRuntime,
    office: &mut Office<'_, T>,
    call: &Call,
    refusing: &str,
) -> Result<Attempt, TrialStop> {
    let mut sink = MemorySink::with_room(rt.alloc(), ROOM)?;
    let mut source = MemorySource::new(&call.bytes);
    let (alloc, moment) = (rt.alloc(), call.moment);
    let mut routes = Routes::new();
    begin(rt, refusing);
    let served = serve_one(alloc, &mut routes, office, moment, &mut source, &mut sink);
    let refused = was_refused(rt);
    match served {
        Ok(Served::Replied | Served::Refused) => {
            one(Vec::from_slice(rt.alloc(), sink.taken())?, refused)
        }
        Err(ServeFault::Memory) if sink.taken().is_empty() => Ok(Attempt {
            answers: Vec::new(rt.alloc()),
            refused,
        }),
        Ok(Served::Closed) | Err(_) => Err(TrialStop::Output),
    }
}

/// The bytes of a reply.
fn told_by(alloc: Global, reply: &Reply) -> Result<Vec<u8>, TrialStop> {
    let mut sink = MemorySink::with_room(alloc, ROOM)?;
    let written = write_reply(alloc, reply, false, &mut sink);
    written.ok().ok_or(TrialStop::Output)?;
    Ok(Vec::from_slice(alloc, sink.taken())?)
}

/// A call with one answer.
fn one(answer: Vec<u8>, refused: bool) -> Result<Attempt, TrialStop> {
    let mut answers = Vec::new(*answer.allocator());
    answers.push(answer)?;
    Ok(Attempt { answers, refused })
}

// The library that refuses memory is told what to refuse, and asked whether it has, by opening certain paths.
// That takes no memory. Without the library nothing is there.

/// In this folder, a number is that of a growth which the library refuses. For 0, it refuses none.
pub(crate) const ONCE: &str = "/refused-memory/once";

/// In this folder, it is that of a growth which the library refuses, like each later one.
pub(crate) const ON: &str = "/refused-memory/on";

/// The path at which the library tells whether it has refused a growth. After that it refuses none.
const ASKED: &str = "/refused-memory/asked";

/// Tells the library that a call begins now. It counts growths from 1.
pub(crate) fn begin(rt: &HostRuntime, refusing: &str) {
    let _ = fs::open(rt, refusing);
}

/// Tells the library that a call has ended now. Answers whether a growth was refused during it.
pub(crate) fn was_refused(rt: &HostRuntime) -> bool {
    match fs::open(rt, ASKED) {
        Ok(_) => false,
        Err(error) => error.kind() == ErrorKind::PermissionDenied,
    }
}
