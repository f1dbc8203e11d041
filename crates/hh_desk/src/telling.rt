//! The line that is written after a load or a run.

ghost use Rattle.std.specs.Prelude.{◌≡◌, ◌≢◌, IfErr, IsErrOf, OnOk};
ghost use Rattle.hh_devices.specs.DeviceChanges.{change};
ghost use Rattle.hh_devices.specs.Devices.{Failed};
ghost use Rattle.hh_desk.specs.declared.told.Told.TheVariants.{Replied};
ghost use Rattle.hh_desk.specs.steps.Telling.{TellsOutcome};

use crate::errand::ErrandStop;
use crate::lines::{loaded_line, run_line};
use crate::told::Told;
use hh_devices::{Sink, write_whole};
use hh_requests::Reply;

/// Writes the line of a load or a run that was done, or gives the reason why it was not.
pub(crate) fn tell<O: Sink>(told: &Told, out: &mut O) -> Result<(), ErrandStop>
    ensures told { TellsOutcome (change O.taken O.failures out.old out.new) told.now result }
    ensures well { OnOk result (O.failures out.new ≡ O.failures out.old) }
    ensures failed { IsErrOf result ErrandStop.Output
        → Failed (O.failures out.old) (O.failures out.new) }
    ensures untouched { IfErr result (λ stop. stop ≢ ErrandStop.Output → out.new ≡ out.old) }
{
    match told {
        Told::Replied(reply) => tell_reply(reply, out),
        Told::Unreadable => Err(ErrandStop::Unreadable),
    }
}

/// Writes the line of a load or a run, or gives the reason of a refusal. The other replies answer neither,
/// and have no line.
fn tell_reply<O: Sink>(reply: &Reply, out: &mut O) -> Result<(), ErrandStop>
    ensures told { TellsOutcome (change O.taken O.failures out.old out.new)
        (Replied reply.now) result }
    ensures well { OnOk result (O.failures out.new ≡ O.failures out.old) }
    ensures failed { IsErrOf result ErrandStop.Output
        → Failed (O.failures out.old) (O.failures out.new) }
    ensures untouched { IfErr result (λ stop. stop ≢ ErrandStop.Output → out.new ≡ out.old) }
{
    match reply {
        Reply::Loaded(loaded) => write_whole(out, &loaded_line(*loaded))?,
        Reply::Ran { run, summary } => write_whole(out, &run_line(run, summary))?,
        Reply::Refused(fault) => return Err(ErrandStop::Refused(*fault)),
        Reply::Account(_) | Reply::Balance { .. } | Reply::Contracts(_) | Reply::Runs(_) => {
            write_whole(out, b"")?
        }
    }
    Ok(())
}
