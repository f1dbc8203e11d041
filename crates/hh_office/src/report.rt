//! Why a report is not written whole.

ghost use Rattle.std.specs.Prelude.{◌≡◌};
ghost use Rattle.hh_names.specs.Faults.{plain_fault};
ghost use Rattle.hh_office.specs.declared.report.ReportStop.TheVariants.{Refused};

use hh_names::{Fault, Refusal};
use hh_store::{OutputFault, StoreFault};

/// Why a report is not written whole.
#[derive(Clone, Copy, Debug, PartialEq, Eq)]
pub enum ReportStop {
    /// The report is refused, and nothing is written. Or it was given up, with 90 or 91, and a beginning of
    /// it may have been written.
    Refused(Fault),
    /// The output failed or took nothing in the call. A beginning of the report may have been written.
    Write,
}

impl ReportStop {
    /// A report that is refused as a whole.
    pub(crate) fn of(why: Refusal) -> ReportStop
        ensures { result ≡ Refused (plain_fault why) }
    {
        ReportStop::Refused(Fault::of(why))
    }
}

impl From<StoreFault> for ReportStop {
    ghost use Rattle.std.specs.Prelude.{◌≡◌};
    ghost use Rattle.hh_store.specs.StoreFaults.{store_fault};
    ghost use Rattle.hh_office.specs.declared.report.ReportStop.TheVariants.{Refused};

    ghost from_gives = { λ error stop. stop ≡ Refused (store_fault error) };

    fn from(error: StoreFault) -> ReportStop {
        ReportStop::Refused(error.into())
    }
}

impl From<OutputFault> for ReportStop {
    ghost use Rattle.std.specs.Prelude.{◌≡◌};
    ghost use Rattle.hh_office.specs.Reports.{stop_for};

    ghost from_gives = { λ error stop. stop ≡ stop_for error };

    fn from(error: OutputFault) -> ReportStop {
        match error {
            OutputFault::Memory => ReportStop::of(Refusal::Memory),
            OutputFault::Store => ReportStop::of(Refusal::Store),
            OutputFault::Write => ReportStop::Write,
        }
    }
}
