//! Files that are opened by their paths and read as sources.

ghost use Rattle.std.specs.Prelude.{◌≡◌, ◌≤◌, ⊤, ℕ, List, Result, take, vec_len, IfOk, IfSome, IsErrOf};
ghost use Rattle.hh_devices.specs.Devices.{Failed};
ghost use Rattle.hh_inputs.specs.FileInputs.{ReadsAs};
ghost use Rattle.hh_inputs.specs.declared.inputs.InputFault.{InputFault};

use crate::inputs::{InputFault, Inputs};
use hh_devices::{Source, StreamSource};
use std::alloc::Global;
use std::fs;
use std::rt::Files;

/// How many bytes of a file are read in one call.
const PIECE: usize = 65_536;

/// Opens files by their paths.
pub trait Opener {
    type File: Source + Drop;

    /// What opening a path may answer.
    ghost opens: { Self → List ℕ → Result Self.File InputFault → Type 0 };

    /// Opens the file at a path for reading.
    fn open(&self, path: &str) -> Result<Self::File, InputFault>
        ensures { opens self.now path.now result };
}

/// The files of the system. No clause of std says what is opened at a path, so none does here.
#[derive(Clone, Copy)]
pub struct RuntimeFiles<'a, R>(pub &'a R);

impl<R: Files> Opener for RuntimeFiles<'_, R> {
    type File = StreamSource<R::File>;

    ghost opens = { λ _ _ _. ⊤ };

    fn open(&self, path: &str) -> Result<StreamSource<R::File>, InputFault> {
        Ok(StreamSource::new(fs::open(self.0, path)?))
    }
}

/// The files of an opener.
#[derive(Drop)]
pub struct FileInputs<O>(pub O);

impl<O: Opener> Inputs for FileInputs<O> {
    ghost reads_as = { λ inputs path content.
        ReadsAs (O.opens inputs.0 path) O.File.remaining O.File.failures content };

    fn read(&self, alloc: Global, path: &str, most: usize) -> Result<Vec<u8>, InputFault> {
        let mut file = self.0.open(path)?;
        read_front(alloc, &mut file, most)
    }
}

/// The first `most` bytes that a source gives, or all of them if there are fewer.
///
/// # Errors
///
/// `Unreadable`: a call of the source failed. `Memory`: memory was refused.
pub fn read_front<S: Source>(
    alloc: Global,
    source: &mut S,
    most: usize,
) -> Result<Vec<u8>, InputFault>
    ensures bytes { IfOk result (λ bytes. IfSome (S.remaining source.old)
        (λ all. bytes.items ≡ take most all)) }
    ensures bounded { IfOk result (λ bytes. vec_len bytes ≤ most) }
    ensures failed { IsErrOf result InputFault.Unreadable
        → Failed (S.failures source.old) (S.failures source.new) }
{
    let mut bytes = Vec::new(alloc);
    let mut piece = [0u8; PIECE];
    while bytes.len() < most {
        let room = PIECE.min(most - bytes.len());
        let count = source.read(&mut piece[..room])?;
        if count == 0 {
            return Ok(bytes);
        }
        bytes.extend_from_slice(&piece[..count])?;
    }
    Ok(bytes)
}
