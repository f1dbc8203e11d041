//! A source that reads from any reader.

ghost use Rattle.std.specs.Prelude.{◌≡◌, ◌≤◌, length, IfOk};
ghost use Rattle.std.specs.Io.KnownBytes.{ReadConsumes};
ghost use Rattle.hh_devices.specs.Devices.{CountsErr};

use crate::device::DeviceFailed;
use crate::source::Source;
use crate::stream::Reader;

/// A reader, and how often it failed.
#[derive(Drop)]
pub struct StreamSource<R> {
    reader: R,
    failures: u64,
}

impl<R> StreamSource<R> {
    ghost use Rattle.hh_devices.specs.StreamSource.{reader_of, reader_failures};

    /// The reader as a source, with no failure yet.
    pub fn new(reader: R) -> StreamSource<R>
        ensures reader { reader_of result ≡ reader }
        ensures failures { reader_failures result ≡ 0 }
    {
        StreamSource {
            reader,
            failures: 0,
        }
    }

    /// Gives the reader back.
    pub fn into_inner(self) -> R
        ensures { result ≡ reader_of self }
    {
        self.reader
    }

    /// How many calls failed, counted up to the largest `u64`.
    pub fn failures(&self) -> u64
        ensures { result ≡ reader_failures self.now }
    {
        self.failures
    }
}

impl<R: Reader> Source for StreamSource<R> {
    ghost use Rattle.hh_devices.specs.StreamSource.{reader_of, reader_failures};

    ghost remaining = { λ s. R.remaining (reader_of s) };

    ghost failures = { reader_failures };

    fn read(&mut self, buffer: &mut [u8]) -> Result<usize, DeviceFailed>
        ensures count { IfOk result (λ n. n ≤ length buffer.old) }
        ensures bytes { ReadConsumes (R.remaining (reader_of self.old))
            (R.remaining (reader_of self.new)) result buffer.new }
        ensures failures { CountsErr result (reader_failures self.old) (reader_failures self.new) }

        // The answer is what the reader answers to one read into the buffer.
        ensures answer { R.reads (reader_of self.old) (length buffer.old) result buffer.new
            (reader_of self.new) }
    {
        let answer = self.reader.read_some(buffer);
        if answer.is_err() {
            self.failures = self.failures.saturating_add(1);
        }
        answer
    }
}
