//! A command at an office with given tables.

ghost use Rattle.std.specs.Prelude.{◌≡◌, ◌≢◌, ◌⊎◌, IfErr, IsErrOf, IsTrue, OnOk};
ghost use Rattle.hh_devices.specs.DeviceChanges.{change};
ghost use Rattle.hh_devices.specs.Devices.{Failed};
ghost use Rattle.hh_session.specs.Refusals.{CountsMore};
ghost use Rattle.hh_session.specs.Errands.{IsReport, errand_of};
ghost use Rattle.hh_kept_office.specs.Kept.{EndsOver};
ghost use Rattle.hh_kept_office.specs.steps.Crashes.{OverLeaves};

use hh_devices::Sink;
use hh_host::Host;
use hh_session::{Errand, ErrandStop, Office, run_errand};
use hh_store::Tables;
use hh_time::london;
use std::alloc::Global;

/// Does what a command asks of an office with these tables, in the zone of the market, and returns the
/// tables.
pub(crate) fn run_over<T: Tables, H: Host, O: Sink>(
    alloc: Global,
    tables: T,
    host: &H,
    errand: &Errand<'_>,
    out: &mut O,
) -> (Result<(), ErrandStop>, T)
    ensures ends { IsTrue (T.is_open result.1) → EndsOver (H.view host.now)
        (CountsMore (T.refusals tables) (T.refusals result.1))
        (change O.taken O.failures out.old out.new) (T.content tables) (T.content result.1)
        (errand_of errand.now) result.0 }
    ensures well { OnOk result.0 (O.failures out.new ≡ O.failures out.old) }
    ensures failed { IsErrOf result.0 ErrandStop.Output
        → Failed (O.failures out.old) (O.failures out.new) }
    ensures untouched { IfErr result.0 (λ stop. stop ≢ ErrandStop.Output
        → IsReport (errand_of errand.now) ⊎ (out.new ≡ out.old)) }
    ensures sure { IsTrue (T.is_open result.1) → IsTrue (T.is_open tables) }
    ensures left { OverLeaves T.is_honest T.is_open T.may_leave T.holds (H.view host.now)
        tables result.1 (T.content tables) (errand_of errand.now) result.0 }
{
    // Does nothing, but carries a law for the proof: what a crash leaves of the tables has their content.
    tables.shows_left();
    let mut office = Office::new(alloc, tables, london());
    let ended = run_errand(alloc, &mut office, host, errand, out);
    (ended, office.into_tables())
}
