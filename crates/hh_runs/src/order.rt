//! Which run may come next on a date.

ghost use Rattle.std.specs.Prelude.{◌≡◌};
ghost use Rattle.std.specs.List.{list_any};
ghost use Rattle.hh_names.specs.Faults.{first_met};
ghost use Rattle.hh_runs.specs.NextRun.{is_done, is_earlier_kind, new_unless, next_run, order_refusals};

use crate::next_run::NextRun;
use crate::run_kind::RunKind;
use hh_names::{Fault, Refusal};

/// What becomes of a run of a kind that is asked for on a date that has runs of these kinds (profile).
/// Takes no memory.
///
/// # Errors
///
/// `RunOrder`, 50, if the date has no run of the kind, but one of a later kind. `NoInitialRun`, 51,
/// if it has no run, and the kind isn't SF.
pub fn next_kind(done: &[RunKind], wanted: RunKind) -> Result<NextRun, Fault>
    ensures { result ≡ next_run done.now wanted }
{
    if is_done(done, wanted) {
        Ok(NextRun::Kept)
    } else {
        new_unless(order_refusal(done, wanted))
    }
}

/// Whether a kind is one of these.
fn is_done(done: &[RunKind], wanted: RunKind) -> bool
    ensures { result ≡ is_done done.now wanted }
{
    done.iter().any(|kind| kind.cmp(&wanted).is_eq())
}

/// Why a further run of a date that has runs of these kinds is refused for its kind, if it is.
fn order_refusal(done: &[RunKind], wanted: RunKind) -> Option<Refusal>
    ensures { result ≡ first_met (order_refusals done.now wanted) }
{
    if has_later(done, wanted) {
        Some(Refusal::RunOrder)
    } else if done.is_empty() && RunKind::SF.is_before(wanted) {
        Some(Refusal::NoInitialRun)
    } else {
        None
    }
}

/// Whether any of these kinds comes after another.
fn has_later(done: &[RunKind], kind: RunKind) -> bool
    ensures { result ≡ list_any (is_earlier_kind kind) done.now }
{
    done.iter().any(|later| kind.is_before(*later))
}

/// A run is new unless it is refused.
fn new_unless(refusal: Option<Refusal>) -> Result<NextRun, Fault>
    ensures { result ≡ new_unless refusal }
{
    match refusal {
        Some(why) => Err(Fault::of(why)),
        None => Ok(NextRun::New),
    }
}
