//! Why a report of an office is not written whole.

use hh_reports::ReportFault;
use std::alloc::AllocError;

/// Why a call of the tables that writes a report failed. A beginning of the report may have gone out.
#[derive(Clone, Copy, Debug, PartialEq, Eq)]
pub enum OutputFault {
    /// Memory was refused: refusal 90.
    Memory,
    /// The store refused for another reason, or has content that no office wrote: refusal 91.
    Store,
    /// The output failed or took nothing.
    Write,
}

impl From<AllocError> for OutputFault {
    ghost use Rattle.std.specs.Prelude.{◌≡◌};
    ghost use Rattle.hh_store.specs.declared.output_fault.OutputFault.TheVariants.{Memory};

    ghost from_gives = { λ _ fault. fault ≡ Memory };

    fn from(_error: AllocError) -> OutputFault {
        OutputFault::Memory
    }
}

impl From<ReportFault> for OutputFault {
    ghost use Rattle.std.specs.Prelude.{◌≡◌};
    ghost use Rattle.hh_store.specs.StoreFaults.{output_fault};

    ghost from_gives = { λ error fault. fault ≡ output_fault error };

    fn from(error: ReportFault) -> OutputFault {
        match error {
            ReportFault::Memory => OutputFault::Memory,
            ReportFault::Write => OutputFault::Write,
        }
    }
}
