//! Commands that serve connections.

ghost use Rattle.std.specs.Prelude.{◌≡◌, ◌≢◌, IfErr, IsErrOf, OnOk};
ghost use Rattle.hh_devices.specs.DeviceChanges.{change};
ghost use Rattle.hh_devices.specs.Devices.{Failed};
ghost use Rattle.hh_http_serve.specs.Refusals.{CountsUp, HasRefused};
ghost use Rattle.hh_http_serve.specs.Views.{IsSure};
ghost use Rattle.hh_desk.specs.Errands.{EndsErrand, Serve};
ghost use Rattle.hh_desk.specs.steps.ErrandServing.{ServesAt};

use crate::errand::{ErrandStop, Serving};
use crate::lines::listening_line;
use crate::serving::serve_each;
use hh_devices::{Sink, write_whole};
use hh_host::{FixedClock, Host, HostClock};
use hh_http_serve::{Office, Tables};
use hh_sockets::{Listener, SocketFailed};
use std::alloc::Global;

/// Listens on a port of the loopback interface and tells which one. Then it awaits as many connections as
/// asked for, and serves each that comes, one after the other.
pub(crate) fn serve_connections<T: Tables, H: Host, O: Sink>(
    alloc: Global,
    office: &mut Office<'_, T>,
    host: &H,
    serve: &Serving,
    out: &mut O,
) -> Result<(), ErrandStop>
    ensures ends { IsSure T.is_open office.new
        → EndsErrand (H.view host.now) (HasRefused T.refusals office.old office.new)
        office.old.seen office.new.seen (change O.taken O.failures out.old out.new)
        (Serve serve.now) result }
    ensures well { OnOk result (O.failures out.new ≡ O.failures out.old) }
    ensures failed { IsErrOf result ErrandStop.Output
        → Failed (O.failures out.old) (O.failures out.new) }
    ensures untouched { IfErr result (λ stop. stop ≢ ErrandStop.Output → out.new ≡ out.old) }
    ensures refusals_up { IsSure T.is_open office.new → CountsUp T.refusals office.old office.new }
    ensures sure { IsSure T.is_open office.new → IsSure T.is_open office.old }
{
    match host.listen(serve.port) {
        Ok(mut listener) => {
            write_whole(out, &listening_line(listener.port()))?;
            serve_listener(alloc, office, host, &mut listener, serve);
            Ok(())
        }
        Err(SocketFailed) => Err(ErrandStop::NoSocket),
    }
}

/// Awaits as many connections of a new listener as asked for, and serves each that comes, at the moment that
/// was given or at the moments that the host's clock tells.
fn serve_listener<T: Tables, H: Host, L: Listener>(
    alloc: Global,
    office: &mut Office<'_, T>,
    host: &H,
    listener: &mut L,
    serve: &Serving,
)
    ensures serves { IsSure T.is_open office.new
        → ServesAt (HasRefused T.refusals office.old office.new) office.old.seen office.new.seen
        L.leads listener.old listener.new serve.now }
    ensures refusals_up { IsSure T.is_open office.new → CountsUp T.refusals office.old office.new }
    ensures sure { IsSure T.is_open office.new → IsSure T.is_open office.old }
{
    match serve.at {
        Some(moment) => {
            let mut clock = FixedClock { moment };
            serve_each(alloc, office, listener, &mut clock, serve.count);
        }
        None => serve_each(alloc, office, listener, &mut HostClock(host), serve.count),
    }
}
