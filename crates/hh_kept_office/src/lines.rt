//! The lines of a script, run over an office with given tables.

ghost use Rattle.std.specs.Prelude.{◌≡◌, map, IfErr, IsErrOf, IsTrue, OnOk};
ghost use Rattle.hh_devices.specs.DeviceChanges.{change};
ghost use Rattle.hh_devices.specs.Devices.{Failed};
ghost use Rattle.hh_script.specs.Steps.{step_of};
ghost use Rattle.hh_session.specs.Course.{AllDone};
ghost use Rattle.hh_session.specs.Refusals.{CountsMore};
ghost use Rattle.hh_kept_office.specs.steps.Running.{EarlyBetween, RunsOver};

use hh_devices::Sink;
use hh_host::Host;
use hh_script::ScriptLine;
use hh_session::{LinesStop, Notes, Office, run_lines};
use hh_store::Tables;
use hh_time::london;
use std::alloc::Global;

/// Runs lines over an office with these tables, in the zone of the market, as `run_lines` does, and returns
/// the tables.
pub(crate) fn run_lines_over<T: Tables, H: Host, N: Notes, O: Sink>(
    alloc: Global,
    tables: T,
    host: &H,
    lines: &[ScriptLine<'_>],
    strict: bool,
    notes: &mut N,
    out: &mut O,
) -> (Result<(), LinesStop>, T)
    ensures done { IsTrue (T.is_open result.1)
        → OnOk result.0 (RunsOver (H.view host.now)
        (CountsMore (T.refusals tables) (T.refusals result.1))
        (change O.taken O.failures out.old out.new) (T.content tables) (T.content result.1)
        (AllDone strict) (map step_of lines.now)) }
    ensures well { OnOk result.0 (O.failures out.new ≡ O.failures out.old) }
    ensures cut { IsTrue (T.is_open result.1)
        → IfErr result.0 (EarlyBetween (H.view host.now)
        (CountsMore (T.refusals tables) (T.refusals result.1))
        (change O.taken O.failures out.old out.new) (T.content tables) (T.content result.1)
        strict (map step_of lines.now)) }
    ensures failed { IsErrOf result.0 LinesStop.Output
        → Failed (O.failures out.old) (O.failures out.new) }
    ensures sure { IsTrue (T.is_open result.1) → IsTrue (T.is_open tables) }
{
    let mut office = Office::new(alloc, tables, london());
    let ran = run_lines(alloc, &mut office, host, lines, strict, notes, out);
    (ran, office.into_tables())
}
