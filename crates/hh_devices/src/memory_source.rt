//! A source in memory, for tests and for bytes that are in memory already.

ghost use Rattle.std.specs.Prelude.{◌≡◌, ◌≤◌, ◌<◌, min, length, Some, None, IfOk};
ghost use Rattle.std.specs.Io.KnownBytes.{ReadConsumes};
ghost use Rattle.hh_devices.specs.Devices.{CountsErr};
ghost use Rattle.hh_devices.specs.Pace.{any_pace, failing_after, in_pieces, moved, paced};

use crate::device::DeviceFailed;
use crate::pace::Pace;
use crate::source::Source;

/// A source of bytes in memory. It takes no memory of its own.
#[derive(Drop)]
pub struct MemorySource<'a> {
    bytes: &'a [u8],
    pace: Pace,
    failures: u64,
    ghost some: { 0 < pace.piece },
}

impl<'a> MemorySource<'a> {
    ghost use Rattle.hh_devices.specs.MemorySource.{left_in, source_pace, source_failures};

    /// A source of these bytes, which it gives in one call and with no failure.
    pub fn new(bytes: &'a [u8]) -> MemorySource<'a>
        ensures bytes { left_in result ≡ bytes.now }
        ensures pace { source_pace result ≡ any_pace usize.MAX }
        ensures failures { source_failures result ≡ 0 }
    {
        MemorySource {
            bytes,
            pace: Pace {
                piece: usize::MAX,
                until_failure: None,
            },
            failures: 0,
        }
    }

    /// This source, giving at most `piece` bytes in a call from now on.
    pub fn in_pieces(self, piece: usize) -> MemorySource<'a>
        requires { 0 < piece }
        ensures bytes { left_in result ≡ left_in self.entry }
        ensures pace { source_pace result ≡ in_pieces piece (source_pace self.entry) }
        ensures failures { source_failures result ≡ source_failures self.entry }
    {
        MemorySource {
            bytes: self.bytes,
            pace: Pace {
                piece,
                until_failure: self.pace.until_failure,
            },
            failures: self.failures,
        }
    }

    /// This source, with one call that fails, once `count` more bytes were given. Later calls go on.
    pub fn failing_after(self, count: usize) -> MemorySource<'a>
        ensures bytes { left_in result ≡ left_in self.entry }
        ensures pace { source_pace result ≡ failing_after count (source_pace self.entry) }
        ensures failures { source_failures result ≡ source_failures self.entry }
    {
        MemorySource {
            bytes: self.bytes,
            pace: Pace {
                piece: self.pace.piece,
                until_failure: Some(count),
            },
            failures: self.failures,
        }
    }

    /// How many calls failed, counted up to the largest `u64`.
    pub fn failures(&self) -> u64
        ensures { result ≡ source_failures self.now }
    {
        self.failures
    }
}

impl Source for MemorySource<'_> {
    ghost use Rattle.hh_devices.specs.MemorySource.{wanted_of, left_in, source_pace, source_failures};

    ghost remaining = { λ s. Some (left_in s) };

    ghost failures = { source_failures };

    fn read(&mut self, buffer: &mut [u8]) -> Result<usize, DeviceFailed>
        ensures count { IfOk result (λ n. n ≤ length buffer.old) }
        ensures bytes { ReadConsumes (Some (left_in self.old)) (Some (left_in self.new))
            result buffer.new }
        ensures failures { CountsErr result (source_failures self.old) (source_failures self.new) }

        // The state determines the answer.
        ensures answer { result ≡ moved (source_pace self.old) (wanted_of self.old buffer.old) }
        ensures pace { source_pace self.new
            ≡ paced (source_pace self.old) (wanted_of self.old buffer.old) }
    {
        let bytes = self.bytes;
        let answer = self.pace.step(buffer.len().min(bytes.len()));
        match answer {
            Ok(count) => {
                buffer[..count].copy_from_slice(&bytes[..count]);
                self.bytes = &bytes[count..];
            }
            Err(_) => self.failures = self.failures.saturating_add(1),
        }
        answer
    }
}
