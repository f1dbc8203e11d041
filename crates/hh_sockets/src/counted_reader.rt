//! A reader that may be read only a limited number of times.

ghost use Rattle.std.specs.Prelude.{◌≡◌};

use hh_devices::{DeviceFailed, Reader};

/// A reader, and how many more times it may be read. Any further read fails, and does not touch the reader.
#[derive(Drop)]
pub struct CountedReader<T> {
    reader: T,
    reads_left: u32,
}

impl<T> CountedReader<T> {
    ghost use Rattle.hh_sockets.specs.CountedReader.{counted_reader, reads_left_of};

    /// A reader that may be read `reads` times.
    pub fn new(reader: T, reads: u32) -> CountedReader<T>
        ensures reader { counted_reader result ≡ reader }
        ensures reads { reads_left_of result ≡ reads }
    {
        CountedReader {
            reader,
            reads_left: reads,
        }
    }

    /// The reader itself.
    pub fn into_inner(self) -> T
        ensures { result ≡ counted_reader self }
    {
        self.reader
    }

    /// How many more times it may be read.
    pub fn reads_left(&self) -> u32
        ensures { result ≡ reads_left_of self.now }
    {
        self.reads_left
    }
}

impl<T: Reader> Reader for CountedReader<T> {
    ghost use Rattle.hh_sockets.specs.CountedReader.{ReadsCounted, counted_reader};

    ghost remaining = { λ r. T.remaining (counted_reader r) };

    ghost reads = { ReadsCounted T.reads };

    fn read_some(&mut self, buffer: &mut [u8]) -> Result<usize, DeviceFailed> {
        if self.reads_left == 0 {
            return Err(DeviceFailed);
        }
        self.reads_left -= 1;
        self.reader.read_some(buffer)
    }
}
