//! Commands that ask for a report.

ghost use Rattle.std.specs.Prelude.{◌≡◌, IsErrOf, OnOk};
ghost use Rattle.hh_devices.specs.DeviceChanges.{change};
ghost use Rattle.hh_devices.specs.Devices.{Failed};
ghost use Rattle.hh_http_serve.specs.Crashes.{AddsNothing};
ghost use Rattle.hh_http_serve.specs.Refusals.{CountsUp, HasRefused};
ghost use Rattle.hh_http_serve.specs.Views.{IsSure};
ghost use Rattle.hh_script.specs.Reports.{report_of};
ghost use Rattle.hh_desk.specs.ErrandCrashes.{IfWritten};
ghost use Rattle.hh_desk.specs.steps.Reporting.{EndsReport};

use crate::errand::ErrandStop;
use hh_devices::Sink;
use hh_http_serve::{Office, ReportStop, Tables};
use hh_script::ReportLine;

impl From<ReportStop> for ErrandStop {
    ghost use Rattle.hh_desk.specs.Errands.{report_stop};

    ghost from_gives = { λ why stop. stop ≡ report_stop why };

    fn from(why: ReportStop) -> ErrandStop {
        match why {
            ReportStop::Refused(fault) => ErrandStop::Refused(fault),
            ReportStop::Write => ErrandStop::Output,
        }
    }
}

/// Writes a report, or gives the reason why it is not written whole. The office stays as it is.
pub(crate) fn write_report<T: Tables, O: Sink>(
    office: &mut Office<'_, T>,
    line: &ReportLine<'_>,
    out: &mut O,
) -> Result<(), ErrandStop>
    ensures ends { IsSure T.is_open office.new
        → EndsReport (HasRefused T.refusals office.old office.new) office.old.seen
        (change O.taken O.failures out.old out.new) (report_of line.now) result }
    ensures same { IsSure T.is_open office.new → office.new.seen ≡ office.old.seen }
    ensures well { OnOk result (O.failures out.new ≡ O.failures out.old) }
    ensures failed { IsErrOf result ErrandStop.Output
        → Failed (O.failures out.old) (O.failures out.new) }
    ensures refusals_up { IsSure T.is_open office.new → CountsUp T.refusals office.old office.new }
    ensures sure { IsSure T.is_open office.new → IsSure T.is_open office.old }
    ensures crash { AddsNothing T.is_honest T.is_open T.may_leave
        office.old.tables office.new.tables (IfWritten result) }
{
    office.report(line.key, &line.report, out)?;
    Ok(())
}
