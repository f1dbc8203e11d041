//! Reading the bytes of files by their paths.

ghost use Rattle.std.specs.Prelude.{◌≡◌, ℕ, List, Option, take, IfOk, IsErrOf, Some, None};

use hh_devices::DeviceFailed;
use std::alloc::{AllocError, Global};
use std::io;
use std::io::ErrorKind;

/// Why the bytes of a file cannot be had.
#[derive(Clone, Copy, Debug, PartialEq, Eq)]
pub enum InputFault {
    /// The file cannot be opened or read.
    Unreadable,
    /// Memory was refused.
    Memory,
}

impl From<io::Error> for InputFault {
    ghost use Rattle.std.specs.IoError.{error_kind};
    ghost use Rattle.hh_inputs.specs.Inputs.{input_fault};

    ghost from_gives = { λ error fault. fault ≡ input_fault (error_kind error) };

    fn from(error: io::Error) -> InputFault {
        match error.kind() {
            ErrorKind::OutOfMemory => InputFault::Memory,
            _ => InputFault::Unreadable,
        }
    }
}

impl From<DeviceFailed> for InputFault {
    ghost use Rattle.hh_inputs.specs.declared.inputs.InputFault.TheVariants.{Unreadable};

    ghost from_gives = { λ _ fault. fault ≡ Unreadable };

    fn from(_failed: DeviceFailed) -> InputFault {
        InputFault::Unreadable
    }
}

impl From<AllocError> for InputFault {
    ghost use Rattle.hh_inputs.specs.declared.inputs.InputFault.TheVariants.{Memory};

    ghost from_gives = { λ _ fault. fault ≡ Memory };

    fn from(_error: AllocError) -> InputFault {
        InputFault::Memory
    }
}

/// Files by their paths. Each read opens the file again, and files may change between two reads.
pub trait Inputs {
    /// What a path may read as: all the bytes of its file, or nothing if it cannot be read.
    ghost reads_as: { Self → List ℕ → Option (List ℕ) → Type 0 };

    /// The first `most` bytes of the file at a path, or all of them if it has fewer.
    ///
    /// # Errors
    ///
    /// `Unreadable`: the file cannot be opened or read. `Memory`: memory was refused.
    fn read(&self, alloc: Global, path: &str, most: usize) -> Result<Vec<u8>, InputFault>
        ensures bytes { IfOk result (λ bytes. (all : List ℕ)
            × reads_as self.now path.now (Some all) × (bytes.items ≡ take most all)) }
        ensures unreadable { IsErrOf result InputFault.Unreadable
            → reads_as self.now path.now None };
}
