//! Serving connections: a request is read, the office handles it, and one reply is written.

ghost use Rattle.hh_devices.specs.DeviceChanges.{change};
ghost use Rattle.hh_office.specs.Refusals.{CountsUp};
ghost use Rattle.hh_office.specs.Views.{IsSure};
ghost use Rattle.hh_http_serve.specs.Crashes.{LeavesServed};
ghost use Rattle.hh_http_serve.specs.Serves.{CountsReading, CountsWriting, Serves, ServingFailsAwaiting, RepresentsAfterOne};

use hh_devices::{DeviceFailed, Sink, Source};
use hh_office::{Office, Tables};
use hh_wire::{Incoming, Routes, WireFault, WriteFault, read_request, write_refused, write_reply};
use std::alloc::Global;

/// What came of serving a connection.
#[derive(Clone, Copy, Debug, PartialEq, Eq)]
pub enum Served {
    /// The client closed before it sent a byte, and nothing was written.
    Closed,
    /// The whole request was read, and the office's reply to it was written.
    Replied,
    /// The request was refused before the office was asked, and one reply that tells so was written. The
    /// client may still be sending.
    Refused,
}

/// Why a connection was not served to its end.
#[derive(Clone, Copy, Debug, PartialEq, Eq)]
pub enum ServeFault {
    /// A call of the source failed. Nothing was done, and nothing was written.
    Read,
    /// The sink failed or took nothing, and a beginning of the reply was written.
    Write,
    /// The request was handled, but memory was refused for the reply, and nothing was written.
    Memory,
}

impl From<WriteFault> for ServeFault {
    ghost use Rattle.std.specs.Prelude.{◌≡◌};
    ghost use Rattle.hh_http_serve.specs.ServeFaults.{serve_fault};

    ghost from_gives = { λ fault served. served ≡ serve_fault fault };

    fn from(fault: WriteFault) -> ServeFault {
        match fault {
            WriteFault::Write => ServeFault::Write,
            WriteFault::Memory => ServeFault::Memory,
        }
    }
}

/// Serves a connection (profile). It reads what the client sends, has the office handle the request at a
/// moment, in seconds since 1970-01-01T00:00:00Z, and writes one reply. There is also a reply if the
/// request is refused before the office is asked, or if memory for reading it is refused. Once the request
/// is whole or refused, nothing more is read.
///
/// # Errors
///
/// `Read`: a call of the source failed in this call, and nothing was done. `Write`: the sink failed or took
/// nothing in this call, after the request was handled or refused. `Memory`: the office's reply cannot be
/// built; the request was handled, and nothing was written. After `Write` or `Memory` a client may send a
/// request that loads a file or orders a run again.
pub fn serve_one<T: Tables, I: Source, O: Sink>(
    alloc: Global,
    routes: &mut Routes,
    office: &mut Office<'_, T>,
    moment: i64,
    source: &mut I,
    sink: &mut O,
) -> Result<Served, ServeFault>
    ensures served { IsSure T.is_open office.new
        → Serves (I.remaining source.old) office.old.seen office.new.seen
        (T.refusals office.old.tables) (T.refusals office.new.tables) moment
        (change O.taken O.failures sink.old sink.new) result }
    ensures represents { IsSure T.is_open office.new
        → RepresentsAfterOne office.old.seen office.new.seen moment }
    ensures refusals_up { IsSure T.is_open office.new → CountsUp T.refusals office.old office.new }
    ensures sure { IsSure T.is_open office.new → IsSure T.is_open office.old }
    ensures left { LeavesServed T.is_honest T.is_open T.may_leave T.holds office.old office.new
        (I.remaining source.old) moment (change O.taken O.failures sink.old sink.new) result }
    ensures awaited { ServingFailsAwaiting result
        (I.remaining source.old) (I.remaining source.new) }
    ensures read { CountsReading result (I.failures source.old) (I.failures source.new) }
    ensures written { CountsWriting (change O.taken O.failures sink.old sink.new) result }
{
    match read_request(alloc, routes, source) {
        Ok(Incoming::Closed) => Ok(Served::Closed),
        Ok(Incoming::Asked(request)) => {
            let reply = office.handle(moment, &request);
            write_reply(alloc, &reply, false, sink)?;
            Ok(Served::Replied)
        }
        Err(WireFault::Refused(refused)) => match write_refused(alloc, &refused, sink) {
            Ok(()) => Ok(Served::Refused),
            Err(DeviceFailed) => Err(ServeFault::Write),
        },
        Err(WireFault::Read) => Err(ServeFault::Read),
    }
}
