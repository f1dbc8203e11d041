//! The writers and readers that stream sinks and sources use. Their answers may be known.

ghost use Rattle.std.specs.Prelude.{◌≤◌, ℕ, List, Option, Result, length, IfOk};
ghost use Rattle.std.specs.Io.KnownBytes.{ReadConsumes, WriteAppends};
ghost use Rattle.hh_devices.specs.declared.device.DeviceFailed.{DeviceFailed};

use crate::device::DeviceFailed;
use std::io::{Read, Write};

/// A writer that a `StreamSink` writes to.
pub trait Writer {
    /// The bytes that it holds, if they are known.
    ghost contents: { Self → Option (List ℕ) };

    /// The possible outcomes of a write: the writer, the bytes, the answer, and the writer after it.
    ghost writes: { Self → List ℕ → Result ℕ DeviceFailed → Self → Type 0 };

    /// Takes some of the bytes, from the front, and answers how many.
    fn write_some(&mut self, bytes: &[u8]) -> Result<usize, DeviceFailed>
        ensures count { IfOk result (λ n. n ≤ length bytes.now) }
        ensures bytes { WriteAppends (contents self.old) (contents self.new) result bytes.now }
        ensures answer { writes self.old bytes.now result self.new };
}

/// Any writer of std. Why it fails is not known.
impl<W: Write> Writer for W {
    ghost contents = { W.contents };

    ghost writes = { λ _ _ _ _. Unit {0} };

    fn write_some(&mut self, bytes: &[u8]) -> Result<usize, DeviceFailed> {
        self.write(bytes).map_err(|_| DeviceFailed)
    }
}

/// A reader that a `StreamSource` reads from.
pub trait Reader {
    /// The bytes that it still gives, if they are known.
    ghost remaining: { Self → Option (List ℕ) };

    /// The possible outcomes of a read: the reader, the length of the buffer, the answer with the buffer
    /// after it, and the reader after it.
    ghost reads: { Self → ℕ → Result ℕ DeviceFailed → List ℕ → Self → Type 0 };

    /// Puts some of the bytes that are left at the front of the buffer, and answers how many.
    fn read_some(&mut self, buffer: &mut [u8]) -> Result<usize, DeviceFailed>
        ensures count { IfOk result (λ n. n ≤ length buffer.old) }
        ensures bytes { ReadConsumes (remaining self.old) (remaining self.new) result buffer.new }
        ensures answer { reads self.old (length buffer.old) result buffer.new self.new };
}

/// Any reader of std. Why it fails is not known.
impl<R: Read> Reader for R {
    ghost remaining = { R.remaining };

    ghost reads = { λ _ _ _ _ _. Unit {0} };

    fn read_some(&mut self, buffer: &mut [u8]) -> Result<usize, DeviceFailed> {
        self.read(buffer).map_err(|_| DeviceFailed)
    }
}
