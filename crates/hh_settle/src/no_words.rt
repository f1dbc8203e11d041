//! Why the words of the command line can't be used.

use std::alloc::AllocError;
use std::io;
use std::io::ErrorKind;

/// Why the words of the command line can't be used.
#[derive(Clone, Copy, Debug, PartialEq, Eq)]
pub(crate) enum NoWords {
    /// One of them is not text (UTF-8).
    NotText,
    /// Memory was refused.
    Memory,
}

impl From<io::Error> for NoWords {
    ghost use Rattle.std.specs.IoError.{error_kind};
    ghost use Rattle.std.specs.Prelude.{◌≡◌};
    ghost use Rattle.hh_settle.specs.steps.NoWords.{no_words};

    ghost from_gives = { λ error fault. fault ≡ no_words (error_kind error) };

    fn from(error: io::Error) -> NoWords {
        match error.kind() {
            ErrorKind::OutOfMemory => NoWords::Memory,
            _ => NoWords::NotText,
        }
    }
}

impl From<AllocError> for NoWords {
    ghost use Rattle.std.specs.Prelude.{◌≡◌};
    ghost use Rattle.hh_settle.specs.declared.no_words.NoWords.TheVariants.{Memory};

    ghost from_gives = { λ _ fault. fault ≡ Memory };

    fn from(_error: AllocError) -> NoWords {
        NoWords::Memory
    }
}
