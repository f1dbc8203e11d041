//! What a command asks of an office, and what comes of it.

ghost use Rattle.std.specs.Prelude.{◌≡◌, ◌≢◌, ◌⊎◌, IfErr, IsErrOf, OnOk};
ghost use Rattle.hh_devices.specs.DeviceChanges.{change};
ghost use Rattle.hh_devices.specs.Devices.{Failed};
ghost use Rattle.hh_http_serve.specs.Refusals.{CountsUp, HasRefused};
ghost use Rattle.hh_http_serve.specs.Views.{IsSure};
ghost use Rattle.hh_desk.specs.ErrandCrashes.{ErrandLeaves};
ghost use Rattle.hh_desk.specs.Errands.{EndsErrand, IsReport, errand_of};

use crate::doing::{load_file, make_run};
use crate::errand_serving::serve_connections;
use crate::reporting::write_report;
use crate::telling::tell;
use hh_devices::{DeviceFailed, Sink};
use hh_host::Host;
use hh_http_serve::{Office, Tables};
use hh_names::Fault;
use hh_script::{LoadLine, ReportLine, RunLine};
use std::alloc::Global;

/// Connections to be served.
#[derive(Clone, Copy, Debug, PartialEq, Eq)]
pub struct Serving {
    /// The moment at which each request is handled, in seconds since 1970-01-01T00:00:00Z. If none is
    /// given, the host's clock tells it when it is the connection's turn.
    pub at: Option<i64>,
    /// The port. For 0 the machine chooses a free one.
    pub port: u16,
    /// How many connections are awaited. Each that comes is served. A command has at most 1,000,000.
    pub count: u32,
}

/// What a command asks.
#[derive(Clone, Copy, Debug, PartialEq, Eq)]
pub enum Errand<'a> {
    /// That a file be loaded.
    Load(LoadLine<'a>),
    /// That a run be made.
    Run(RunLine<'a>),
    /// That a report be written.
    Report(ReportLine<'a>),
    /// That connections be served.
    Serve(Serving),
}

/// Why a command is not done.
#[derive(Clone, Copy, Debug, PartialEq, Eq)]
pub enum ErrandStop {
    /// The office refused.
    Refused(Fault),
    /// The file can't be read. The office was not asked.
    Unreadable,
    /// The port can't be listened on.
    NoSocket,
    /// The output failed or took nothing.
    Output,
}

impl From<DeviceFailed> for ErrandStop {
    ghost use Rattle.hh_desk.specs.declared.errand.ErrandStop.TheVariants.{Output};

    ghost from_gives = { λ _ stop. stop ≡ Output };

    fn from(_failed: DeviceFailed) -> ErrandStop {
        ErrandStop::Output
    }
}

/// Does what a command asks at the desk of an office, and writes what was done (profile): `applied=N
/// late=M`; `run DATE KIND periods N accounts N residual T postings N`; a report; or `listening
/// 127.0.0.1:PORT`, before connections are served.
///
/// # Errors
///
/// `Refused`, `Unreadable` and `NoSocket`, with nothing written. The exception is a report that ends with 90
/// or 91: a beginning of it may have been written. `Output`: the output failed or took nothing in this call.
/// What the office did stays done, a beginning of the text that tells it was written, and no connection was
/// awaited.
pub fn run_errand<T: Tables, H: Host, O: Sink>(
    alloc: Global,
    office: &mut Office<'_, T>,
    host: &H,
    errand: &Errand<'_>,
    out: &mut O,
) -> Result<(), ErrandStop>
    ensures ends { IsSure T.is_open office.new
        → EndsErrand (H.view host.now) (HasRefused T.refusals office.old office.new)
        office.old.seen office.new.seen (change O.taken O.failures out.old out.new)
        (errand_of errand.now) result }
    ensures well { OnOk result (O.failures out.new ≡ O.failures out.old) }
    ensures failed { IsErrOf result ErrandStop.Output
        → Failed (O.failures out.old) (O.failures out.new) }
    ensures untouched { IfErr result (λ stop. stop ≢ ErrandStop.Output
        → IsReport (errand_of errand.now) ⊎ (out.new ≡ out.old)) }
    ensures refusals_up { IsSure T.is_open office.new → CountsUp T.refusals office.old office.new }
    ensures sure { IsSure T.is_open office.new → IsSure T.is_open office.old }
    ensures left { ErrandLeaves T.is_honest T.is_open T.may_leave T.holds
        office.old office.new (H.view host.now) (errand_of errand.now) result }
{
    match errand {
        Errand::Load(load) => {
            let told = load_file(alloc, office, host, load);
            tell(&told, out)
        }
        Errand::Run(run) => {
            let told = make_run(alloc, office, run);
            tell(&told, out)
        }
        Errand::Report(report) => write_report(office, report, out),
        Errand::Serve(serve) => serve_connections(alloc, office, host, serve, out),
    }
}
