//! Why rows are not read.

ghost use Rattle.std.specs.Prelude.{◌≡◌};
ghost use Rattle.hh_keyed_rows.specs.RowFaults.{database_refused, output_refused, rows_refused};
ghost use Rattle.hh_keyed_rows.specs.declared.row_fault.RowFault.TheVariants.{Memory};

use hh_store::{OutputFault, StoreFault};
use sqlite::{Error, ErrorCode};
use std::alloc::{AllocError, AllocFailed};

/// Why rows of a database are not read or written.
#[derive(Clone, Copy, Debug, PartialEq, Eq)]
pub enum RowFault {
    /// Memory was refused.
    Memory,
    /// The database refused for another reason, or contains what no office wrote.
    Store,
}

impl From<AllocError> for RowFault {
    ghost from_gives = { λ _ fault. fault ≡ Memory };

    fn from(_error: AllocError) -> RowFault {
        RowFault::Memory
    }
}

impl<T: Drop> From<AllocFailed<T>> for RowFault {
    ghost from_gives = { λ _ fault. fault ≡ Memory };

    fn from(_error: AllocFailed<T>) -> RowFault {
        RowFault::Memory
    }
}

/// `Memory` if the database lacked memory, otherwise `Store`.
impl From<Error> for RowFault {
    ghost from_gives = { λ error fault. fault ≡ database_refused error };

    fn from(error: Error) -> RowFault {
        match error {
            Error::SqliteFailure(ErrorCode::OutOfMemory) => RowFault::Memory,
            _ => RowFault::Store,
        }
    }
}

/// What a store answers if rows are not read or written.
impl From<RowFault> for StoreFault {
    ghost from_gives = { λ fault refused. refused ≡ rows_refused fault };

    fn from(fault: RowFault) -> StoreFault {
        match fault {
            RowFault::Memory => StoreFault::Memory,
            RowFault::Store => StoreFault::Store,
        }
    }
}

/// What a report answers if its rows are not read.
impl From<RowFault> for OutputFault {
    ghost from_gives = { λ fault refused. refused ≡ output_refused fault };

    fn from(fault: RowFault) -> OutputFault {
        match fault {
            RowFault::Memory => OutputFault::Memory,
            RowFault::Store => OutputFault::Store,
        }
    }
}
