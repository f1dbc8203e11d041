//! The lines of a script that ask for a report.

ghost use Rattle.std.specs.Prelude.{◌≡◌, IfOk, OnErr, OnOk};
ghost use Rattle.hh_devices.specs.DeviceChanges.{change};
ghost use Rattle.hh_devices.specs.Devices.{Failed};
ghost use Rattle.hh_desk.specs.Refusals.{CountsUp, HasRefused};
ghost use Rattle.hh_desk.specs.Views.{IsSure};
ghost use Rattle.hh_script.specs.Reports.{report_of};
ghost use Rattle.hh_session.specs.Came.{was_done};
ghost use Rattle.hh_session.specs.steps.Reporting.{BeginsReport, RunsReport};

use crate::notes::Came;
use crate::tell::tell_refused;
use hh_desk::{Office, ReportStop, Tables};
use hh_devices::{DeviceFailed, Sink};
use hh_script::ReportLine;
use std::alloc::Global;

/// Writes a report, or the line of its refusal. If the report is given up, a beginning of it may have been
/// written, and the line follows. Answers what came of it.
pub(crate) fn write_report<T: Tables, O: Sink>(
    alloc: Global,
    office: &mut Office<'_, T>,
    line: &ReportLine<'_>,
    out: &mut O,
) -> Result<Came, DeviceFailed>
    ensures done { IsSure T.is_open office.new
        → IfOk result (λ came. RunsReport (HasRefused T.refusals office.old office.new)
        office.old.seen (change O.taken O.failures out.old out.new) (report_of line.now)
        (was_done came)) }
    ensures well { OnOk result (O.failures out.new ≡ O.failures out.old) }
    ensures cut { IsSure T.is_open office.new
        → OnErr result (BeginsReport (HasRefused T.refusals office.old office.new)
        office.old.seen (change O.taken O.failures out.old out.new) (report_of line.now)) }
    ensures failed { OnErr result (Failed (O.failures out.old) (O.failures out.new)) }
    ensures same { IsSure T.is_open office.new → office.new.seen ≡ office.old.seen }
    ensures refusals_up { IsSure T.is_open office.new → CountsUp T.refusals office.old office.new }
    ensures sure { IsSure T.is_open office.new → IsSure T.is_open office.old }
{
    match office.report(line.key, &line.report, out) {
        Ok(()) => Ok(Came::Done { late: 0 }),
        Err(ReportStop::Refused(fault)) => tell_refused(alloc, fault, out),
        Err(ReportStop::Write) => Err(DeviceFailed),
    }
}
