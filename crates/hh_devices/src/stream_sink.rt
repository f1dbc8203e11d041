//! A sink that writes to any writer.

ghost use Rattle.std.specs.Prelude.{◌≡◌, ◌≤◌, length, IfOk};
ghost use Rattle.std.specs.Io.KnownBytes.{WriteAppends};
ghost use Rattle.hh_devices.specs.Devices.{Assures, Counts};

use crate::device::DeviceFailed;
use crate::sink::Sink;
use crate::stream::Writer;

/// A writer, and how often it failed or took nothing. Bytes that the writer keeps in a buffer of its own
/// are not flushed.
#[derive(Drop)]
pub struct StreamSink<W> {
    writer: W,
    failures: u64,
}

impl<W> StreamSink<W> {
    ghost use Rattle.hh_devices.specs.StreamSink.{writer_of, writer_failures};

    /// The writer as a sink, with no failure yet.
    pub fn new(writer: W) -> StreamSink<W>
        ensures writer { writer_of result ≡ writer }
        ensures failures { writer_failures result ≡ 0 }
    {
        StreamSink {
            writer,
            failures: 0,
        }
    }

    /// Gives the writer back.
    pub fn into_inner(self) -> W
        ensures { result ≡ writer_of self }
    {
        self.writer
    }

    /// How many calls failed or took nothing, counted up to the largest `u64`.
    pub fn failures(&self) -> u64
        ensures { result ≡ writer_failures self.now }
    {
        self.failures
    }
}

impl<W: Writer> Sink for StreamSink<W> {
    ghost use Rattle.hh_devices.specs.StreamSink.{writer_of, writer_failures};

    ghost taken = { λ s. W.contents (writer_of s) };

    ghost failures = { writer_failures };

    fn write(&mut self, bytes: &[u8]) -> Result<usize, DeviceFailed>
        ensures count { IfOk result (λ n. n ≤ length bytes.now) }
        ensures bytes { WriteAppends (W.contents (writer_of self.old))
            (W.contents (writer_of self.new)) result bytes.now }
        ensures failures { Counts result (writer_failures self.old) (writer_failures self.new) }
        ensures assured { Assures result 0 0 (length bytes.now) }

        // The answer is what the writer answers to one write of these bytes.
        ensures answer { W.writes (writer_of self.old) bytes.now result (writer_of self.new) }
    {
        let answer = self.writer.write_some(bytes);
        if answer.unwrap_or(0) == 0 {
            self.failures = self.failures.saturating_add(1);
        }
        answer
    }
}
