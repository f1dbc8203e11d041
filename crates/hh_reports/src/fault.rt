//! Why a report is not written whole.

use hh_devices::DeviceFailed;
use std::alloc::{AllocError, AllocFailed};

/// Why a report is not written whole. A beginning of it may have gone out.
#[derive(Clone, Copy, Debug, PartialEq, Eq)]
pub enum ReportFault {
    /// Memory was refused: refusal 90.
    Memory,
    /// The output failed or took nothing.
    Write,
}

impl From<AllocError> for ReportFault {
    ghost use Rattle.std.specs.Prelude.{◌≡◌};
    ghost use Rattle.hh_reports.specs.declared.fault.ReportFault.TheVariants.{Memory};

    ghost from_gives = { λ _ fault. fault ≡ Memory };

    fn from(_error: AllocError) -> ReportFault {
        ReportFault::Memory
    }
}

impl<T: Drop> From<AllocFailed<T>> for ReportFault {
    ghost use Rattle.std.specs.Prelude.{◌≡◌};
    ghost use Rattle.hh_reports.specs.declared.fault.ReportFault.TheVariants.{Memory};

    ghost from_gives = { λ _ fault. fault ≡ Memory };

    fn from(_error: AllocFailed<T>) -> ReportFault {
        ReportFault::Memory
    }
}

impl From<DeviceFailed> for ReportFault {
    ghost use Rattle.std.specs.Prelude.{◌≡◌};
    ghost use Rattle.hh_reports.specs.declared.fault.ReportFault.TheVariants.{Write};

    ghost from_gives = { λ _ fault. fault ≡ Write };

    fn from(_error: DeviceFailed) -> ReportFault {
        ReportFault::Write
    }
}
