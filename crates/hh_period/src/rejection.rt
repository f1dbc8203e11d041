//! Why the inputs of a period are refused.

use hh_names::{Fault, Refusal};
use std::alloc::{AllocError, AllocFailed};

/// The inputs that a refusal may name.
#[derive(Clone, Copy, Debug, PartialEq, Eq)]
pub enum Input {
    /// The file of the meter rows.
    Meter,
    /// The file of the contract rows.
    Contracts,
    /// The price.
    Price,
}

/// A refusal, with the input that it names. Refusals for memory or for figures over a limit name none.
#[derive(Clone, Copy, Debug, PartialEq, Eq)]
pub struct Rejection {
    pub fault: Fault,
    pub input: Option<Input>,
}

impl Rejection {
    ghost use Rattle.std.specs.Prelude.{◌≡◌, None};
    ghost use Rattle.hh_names.specs.Faults.{plain_fault, ByRefusal};
    ghost use Rattle.hh_period.specs.Outcome.{memory_rejection, rejection_in};

    /// A refusal that names no input.
    pub fn of(refusal: Refusal) -> Rejection
        ensures { result ≡ record { fault = plain_fault refusal; input = None } }
    {
        Rejection {
            fault: Fault::of(refusal),
            input: None,
        }
    }

    /// A refusal that an input meets.
    pub fn of_input(input: Input, fault: Fault) -> Rejection
        ensures refusal { result.fault.refusal ≡ fault.refusal }
        ensures input { ByRefusal fault.refusal (result ≡ memory_rejection)
            (result ≡ rejection_in input fault) }
    {
        match fault.refusal {
            Refusal::Memory => Rejection::of(Refusal::Memory),
            _ => Rejection {
                fault,
                input: Some(input),
            },
        }
    }
}

impl From<AllocError> for Rejection {
    ghost use Rattle.std.specs.Prelude.{◌≡◌};
    ghost use Rattle.hh_period.specs.Outcome.{memory_rejection};

    ghost from_gives = { λ _ rejection. rejection ≡ memory_rejection };

    fn from(_error: AllocError) -> Rejection {
        Rejection::of(Refusal::Memory)
    }
}

impl<T: Drop> From<AllocFailed<T>> for Rejection {
    ghost use Rattle.std.specs.Prelude.{◌≡◌};
    ghost use Rattle.hh_period.specs.Outcome.{memory_rejection};

    ghost from_gives = { λ _ rejection. rejection ≡ memory_rejection };

    fn from(_error: AllocFailed<T>) -> Rejection {
        Rejection::of(Refusal::Memory)
    }
}
