//! Why a store refuses, and how often it has.

ghost use Rattle.std.specs.Prelude.{◌≡◌, Err};
ghost use Rattle.hh_store.specs.StoreFaults.{CountsOneMore, CountsRefusal, CountsReportRefusal};

use hh_store::{OutputFault, StoreFault};

/// Counts a refusal, if the fault is one, and returns the fault.
pub(crate) fn refuse(refusals: &mut u64, fault: StoreFault) -> StoreFault
    ensures same { result ≡ fault }
    ensures counts { CountsRefusal {A = Unit {0}} (Err fault) refusals.old refusals.new }
{
    if fault == StoreFault::Store {
        count_refusal(refusals);
    }
    fault
}

/// Counts a refusal, if the fault of a report is one, and returns the fault.
pub(crate) fn refuse_report(refusals: &mut u64, fault: OutputFault) -> OutputFault
    ensures same { result ≡ fault }
    ensures counts { CountsReportRefusal {A = Unit {0}} (Err fault) refusals.old refusals.new }
{
    if fault == OutputFault::Store {
        count_refusal(refusals);
    }
    fault
}

/// Counts one more refusal. The greatest count stays as it is.
fn count_refusal(refusals: &mut u64)
    ensures { CountsOneMore refusals.old refusals.new }
{
    *refusals = refusals.saturating_add(1);
}
