//! The lines of a script that serve connections.

ghost use Rattle.std.specs.Prelude.{◌≡◌, IfOk, OnErr, OnOk};
ghost use Rattle.hh_devices.specs.DeviceChanges.{change};
ghost use Rattle.hh_devices.specs.Devices.{Failed};
ghost use Rattle.hh_desk.specs.Refusals.{CountsUp, HasRefused};
ghost use Rattle.hh_desk.specs.Views.{IsSure};
ghost use Rattle.hh_session.specs.Came.{was_done};
ghost use Rattle.hh_session.specs.steps.Serving.{RunsServing, StopsServing};

use crate::notes::Came;
use hh_desk::{Office, Tables, listening_line, serve_each};
use hh_devices::{DeviceFailed, Sink, write_whole};
use hh_host::{FixedClock, Host};
use hh_script::ServeLine;
use hh_sockets::{Listener, SocketFailed};
use std::alloc::Global;

/// Listens on a port of the loopback interface and tells which one. Then it serves as many connections as
/// the line says, one after the other, at the line's moment. If the port cannot be listened on, it tells
/// that instead. Answers what came of it.
pub(crate) fn serve_connections<T: Tables, H: Host, O: Sink>(
    alloc: Global,
    office: &mut Office<'_, T>,
    host: &H,
    line: &ServeLine,
    out: &mut O,
) -> Result<Came, DeviceFailed>
    ensures done { IsSure T.is_open office.new
        → IfOk result (λ came. RunsServing (H.view host.now)
        (HasRefused T.refusals office.old office.new) office.old.seen office.new.seen
        (change O.taken O.failures out.old out.new) line.now (was_done came)) }
    ensures well { OnOk result (O.failures out.new ≡ O.failures out.old) }
    ensures cut { IsSure T.is_open office.new
        → OnErr result (StopsServing (H.view host.now)
        (HasRefused T.refusals office.old office.new) office.old.seen office.new.seen
        (change O.taken O.failures out.old out.new) line.now) }
    ensures failed { OnErr result (Failed (O.failures out.old) (O.failures out.new)) }
    ensures refusals_up { IsSure T.is_open office.new → CountsUp T.refusals office.old office.new }
    ensures sure { IsSure T.is_open office.new → IsSure T.is_open office.old }
{
    match host.listen(line.port) {
        Ok(mut listener) => {
            write_whole(out, &listening_line(listener.port()))?;
            let mut clock = FixedClock {
                moment: line.moment,
            };
            serve_each(alloc, office, &mut listener, &mut clock, line.count);
            Ok(Came::Done { late: 0 })
        }
        Err(SocketFailed) => {
            write_whole(out, b"fault socket\n")?;
            Ok(Came::NoSocket)
        }
    }
}
