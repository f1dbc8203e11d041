//! Connections that are served.

ghost use Rattle.hh_desk.specs.Serving.{ServesEach};
ghost use Rattle.hh_sockets.specs.Arrivals.{exchange};
ghost use Rattle.hh_http_serve.specs.Refusals.{CountsUp, HasRefused};
ghost use Rattle.hh_http_serve.specs.Views.{IsSure};
ghost use Rattle.hh_desk.specs.steps.Serving.{ServesNext, ServesNow};

use hh_devices::{Sink, Source};
use hh_host::Clock;
use hh_http_serve::{Office, Routes, ServeFault, Served, Tables, serve_one};
use hh_sockets::{Connection, Listener, Received};
use std::alloc::Global;

/// Awaits `count` connections of a listener, one after the other. Each connection that comes is served
/// once (profile). The request of a connection is handled at the moment that the clock tells when it is the
/// connection's turn, before anything of it is read. A fault of a connection ends only that connection, and
/// so does a clock that tells no moment.
pub fn serve_each<T: Tables, L: Listener, C: Clock>(
    alloc: Global,
    office: &mut Office<'_, T>,
    listener: &mut L,
    clock: &mut C,
    count: u32,
)
    ensures serves { IsSure T.is_open office.new
        → ServesEach (HasRefused T.refusals office.old office.new) office.old.seen office.new.seen
        L.leads listener.old listener.new C.leads clock.old clock.new count }
    ensures refusals_up { IsSure T.is_open office.new → CountsUp T.refusals office.old office.new }
    ensures sure { IsSure T.is_open office.new → IsSure T.is_open office.old }
{
    let mut routes = Routes::new();
    for _ in 0..count {
        serve_next(alloc, &mut routes, office, listener, clock);
    }
}

/// Awaits the next connection and serves it, if it comes.
fn serve_next<T: Tables, L: Listener, C: Clock>(
    alloc: Global,
    routes: &mut Routes,
    office: &mut Office<'_, T>,
    listener: &mut L,
    clock: &mut C,
)
    ensures serves { IsSure T.is_open office.new
        → ServesNext (HasRefused T.refusals office.old office.new) office.old.seen office.new.seen
        L.leads listener.old listener.new C.leads clock.old clock.new }
    ensures refusals_up { IsSure T.is_open office.new → CountsUp T.refusals office.old office.new }
    ensures sure { IsSure T.is_open office.new → IsSure T.is_open office.old }
{
    let Ok(mut connection) = listener.accept() else {
        return;
    };
    let received = serve_now(alloc, routes, office, clock, &mut connection);
    listener.close(connection, received);
}

/// Serves a connection at the moment that the clock tells, if it tells one. Answers how much was read of
/// what the client sends.
fn serve_now<T: Tables, S: Source, K: Sink, C: Clock>(
    alloc: Global,
    routes: &mut Routes,
    office: &mut Office<'_, T>,
    clock: &mut C,
    connection: &mut Connection<S, K>,
) -> Received
    ensures serves { IsSure T.is_open office.new
        → ServesNow (HasRefused T.refusals office.old office.new) office.old.seen office.new.seen
        (exchange S.remaining S.failures K.taken K.failures connection.old connection.new)
        C.leads clock.old clock.new }
    ensures refusals_up { IsSure T.is_open office.new → CountsUp T.refusals office.old office.new }
    ensures sure { IsSure T.is_open office.new → IsSure T.is_open office.old }
{
    let Ok(moment) = clock.now() else {
        return Received::Beginning;
    };
    let Connection { source, sink } = connection;
    received_of(serve_one(alloc, routes, office, moment, source, sink))
}

/// How much was read of what a client sends, given how it was served.
fn received_of(served: Result<Served, ServeFault>) -> Received {
    match served {
        Ok(Served::Closed | Served::Replied) => Received::Whole,
        Ok(Served::Refused) | Err(_) => Received::Beginning,
    }
}
