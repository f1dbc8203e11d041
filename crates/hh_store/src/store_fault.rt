//! Why a store gives no answer.

use hh_states::{Fault, Refusal};
use std::alloc::{AllocError, AllocFailed};

/// Why a call of the tables failed.
#[derive(Clone, Copy, Debug, PartialEq, Eq)]
pub enum StoreFault {
    /// Memory was refused: refusal 90.
    Memory,
    /// The store refused for another reason, or has content that no office wrote: refusal 91.
    Store,
}

impl From<StoreFault> for Fault {
    ghost use Rattle.std.specs.Prelude.{◌≡◌};
    ghost use Rattle.hh_store.specs.StoreFaults.{store_fault};

    ghost from_gives = { λ error fault. fault ≡ store_fault error };

    fn from(error: StoreFault) -> Fault {
        match error {
            StoreFault::Memory => Fault::of(Refusal::Memory),
            StoreFault::Store => Fault::of(Refusal::Store),
        }
    }
}

impl From<AllocError> for StoreFault {
    ghost use Rattle.std.specs.Prelude.{◌≡◌};
    ghost use Rattle.hh_store.specs.declared.store_fault.StoreFault.TheVariants.{Memory};

    ghost from_gives = { λ _ fault. fault ≡ Memory };

    fn from(_error: AllocError) -> StoreFault {
        StoreFault::Memory
    }
}

impl<T: Drop> From<AllocFailed<T>> for StoreFault {
    ghost use Rattle.std.specs.Prelude.{◌≡◌};
    ghost use Rattle.hh_store.specs.declared.store_fault.StoreFault.TheVariants.{Memory};

    ghost from_gives = { λ _ fault. fault ≡ Memory };

    fn from(_error: AllocFailed<T>) -> StoreFault {
        StoreFault::Memory
    }
}
