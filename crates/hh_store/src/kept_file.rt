//! Accepted files.

ghost use Rattle.std.specs.Prelude.{◌≡◌, IfOk};

use hh_states::FileBody;
use std::alloc::AllocError;
use std::marker::Model;

/// What is kept of an accepted file, so that a repeat of it gets the same reply (profile).
#[derive(Debug, Drop)]
pub struct KeptFile {
    body: FileBody,
    applied: u32,
    late: u32,
}

impl Model for KeptFile {
    ghost use Rattle.hh_states.specs.States.{KeptFileView};

    ghost Value = { KeptFileView };

    ghost view = { λ f. record { body = f.body; applied = f.applied; late = f.late } };
}

impl KeptFile {
    /// A file of these bytes, with the numbers of rows that were applied and that came late.
    pub fn new(body: FileBody, applied: u32, late: u32) -> KeptFile
        ensures { result ≡ record { body = body; applied = applied; late = late } }
    {
        KeptFile {
            body,
            applied,
            late,
        }
    }

    /// A copy, which shares the bytes. `Err` only if they have too many holders to be counted.
    pub fn copy(&self) -> Result<KeptFile, AllocError>
        ensures { IfOk result (λ file. file ≡ self.now) }
    {
        Ok(KeptFile {
            body: self.body.share()?,
            applied: self.applied,
            late: self.late,
        })
    }

    /// The file's bytes.
    pub fn body(&self) -> &[u8]
        ensures { result.now ≡ self.now.body }
    {
        self.body.as_slice()
    }

    /// How many rows were applied: all but the late ones.
    pub fn applied(&self) -> u32
        ensures { result ≡ self.now.applied }
    {
        self.applied
    }

    /// How many rows came late, which are rows of contracts or reallocations that came at their deadline or
    /// after it (Section P in shape; the deadline is profile).
    pub fn late(&self) -> u32
        ensures { result ≡ self.now.late }
    {
        self.late
    }
}
