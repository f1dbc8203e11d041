//! Devices that give bytes.

ghost use Rattle.std.specs.Prelude.{◌≤◌, ℕ, List, Option, length, IfOk};
ghost use Rattle.std.specs.Io.KnownBytes.{ReadConsumes};
ghost use Rattle.hh_devices.specs.Devices.{CountsErr};

use crate::device::DeviceFailed;

/// A device that gives bytes.
pub trait Source {
    /// The bytes that it still gives, if they are known.
    ghost remaining: { Self → Option (List ℕ) };

    /// How many calls failed.
    ghost failures: { Self → ℕ };

    /// Puts some of the bytes that are left at the front of the buffer, and answers how many. It
    /// gives none only at the end, or if the buffer is empty.
    fn read(&mut self, buffer: &mut [u8]) -> Result<usize, DeviceFailed>
        ensures count { IfOk result (λ n. n ≤ length buffer.old) }
        ensures bytes { ReadConsumes (remaining self.old) (remaining self.new) result buffer.new }
        ensures failures { CountsErr result (failures self.old) (failures self.new) };
}
