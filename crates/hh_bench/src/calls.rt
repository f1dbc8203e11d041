//! What is asked of an office, read from files.

use crate::stop::TrialStop;
use hh_devices::MemorySource;
use hh_names::Refusal;
use hh_requests::{Action, Report, Request};
use hh_rows::Row;
use hh_script::{ScriptLine, read_script};
use hh_texts::read_file;
use hh_wire::{Incoming, Routes, WireFault, read_request};
use std::alloc::Global;
use std::fs;

/// What is asked of an office.
#[derive(Drop)]
pub(crate) enum Asked {
    /// A request, twice.
    Twice([(i64, Request); 2]),
    /// Bytes that are no request.
    NoRequest,
    /// A report, with this key.
    Report { key: Vec<u8>, report: Report },
}

impl Asked {
    /// The action of the request, if it is one.
    pub(crate) fn action(&self) -> Option<&Action> {
        match self {
            Asked::Twice([(_, request), _]) => Some(&request.action),
            Asked::NoRequest | Asked::Report { .. } => None,
        }
    }
}

/// One call: what a file has, and when it comes.
#[derive(Drop)]
pub(crate) struct Call {
    pub(crate) moment: i64,
    pub(crate) bytes: Vec<u8>,
    pub(crate) asked: Asked,
    /// The rows of the file that is sent by it, if a file is sent.
    pub(crate) rows: Vec<Row>,
}

/// The calls that these words give: a moment and a path for each.
pub(crate) fn calls_of(rt: &HostRuntime, words: &[String]) -> Result<Vec<Call>, TrialStop> {
    let mut calls = Vec::new(rt.alloc());
    for pair in words.chunks(2) {
        let [moment, path] = pair else {
            return Err(TrialStop::Words);
        };
        let moment = moment.parse().ok().ok_or(TrialStop::Words)?;
        calls.push(call_of(rt, moment, path.as_str())?)?;
    }
    Ok(calls)
}

/// The call that a file asks for, at a moment.
fn call_of(rt: &HostRuntime, moment: i64, path: &str) -> Result<Call, TrialStop> {
    let bytes = fs::read(rt, path)?;
    let asked = asked_by(rt.alloc(), moment, &bytes)?;
    let rows = rows_of(rt.alloc(), &asked)?;
    Ok(Call {
        moment,
        bytes,
        asked,
        rows,
    })
}

/// What the bytes of a file ask for at a moment: a report, or a request twice, if they are one.
fn asked_by(alloc: Global, moment: i64, bytes: &[u8]) -> Result<Asked, TrialStop> {
    if let Some(asked) = report_in(alloc, bytes)? {
        return Ok(asked);
    }
    match (request_of(alloc, bytes)?, request_of(alloc, bytes)?) {
        (Some(first), Some(second)) => Ok(Asked::Twice([(moment, first), (moment, second)])),
        _ => Ok(Asked::NoRequest),
    }
}

/// The report for which the first line of a script asks, if the bytes are a script and it asks for one.
fn report_in(alloc: Global, bytes: &[u8]) -> Result<Option<Asked>, TrialStop> {
    let Ok(lines) = read_script(alloc, bytes) else {
        return Ok(None);
    };
    match lines.first() {
        Some(ScriptLine::Report(line)) => Ok(Some(Asked::Report {
            key: Vec::from_slice(alloc, line.key)?,
            report: line.report,
        })),
        _ => Ok(None),
    }
}

/// The request of these bytes, if they are one.
fn request_of(alloc: Global, bytes: &[u8]) -> Result<Option<Request>, TrialStop> {
    let mut routes = Routes::new();
    match read_request(alloc, &mut routes, &mut MemorySource::new(bytes)) {
        Ok(Incoming::Asked(request)) => Ok(Some(request)),
        Err(WireFault::Refused(refused)) if refused.cause.refusal() == Refusal::Memory => {
            Err(TrialStop::no_memory())
        }
        Ok(Incoming::Closed) | Err(_) => Ok(None),
    }
}

/// The rows of the file that is sent. There are none if no file is sent, or if it is refused.
fn rows_of(alloc: Global, asked: &Asked) -> Result<Vec<Row>, TrialStop> {
    let Some(Action::Load(upload)) = asked.action() else {
        return Ok(Vec::new(alloc));
    };
    match read_file(alloc, upload.kind, upload.body.as_slice()) {
        Ok(rows) => Ok(rows),
        Err(fault) if fault.refusal == Refusal::Memory => Err(TrialStop::from(fault)),
        Err(_) => Ok(Vec::new(alloc)),
    }
}
