//! Devices that take bytes.

ghost use Rattle.std.specs.Prelude.{◌≡◌, ◌≤◌, ◌+◌, ℕ, List, Option, length, IfOk, IsOk, OnOk, OnErr};
ghost use Rattle.std.specs.Io.KnownBytes.{Appends, WriteAppends};
ghost use Rattle.hh_devices.specs.Devices.{AppendsFront, Assures, Counts, Failed};

use crate::device::DeviceFailed;

/// A device that takes bytes.
pub trait Sink {
    /// The bytes that it has taken, if they are known.
    ghost taken: { Self → Option (List ℕ) };

    /// How many calls failed or took nothing.
    ghost failures: { Self → ℕ };

    /// How many more bytes it takes at least, in one call or in several, with no failure.
    ghost assured: { Self → ℕ } = { λ _. 0 };

    /// Takes some of the bytes, from the front, and answers how many. A call that takes none counts
    /// as a failure, even if no bytes are offered.
    fn write(&mut self, bytes: &[u8]) -> Result<usize, DeviceFailed>
        ensures count { IfOk result (λ n. n ≤ length bytes.now) }
        ensures bytes { WriteAppends (taken self.old) (taken self.new) result bytes.now }
        ensures failures { Counts result (failures self.old) (failures self.new) }
        ensures assured { Assures result (assured self.old) (assured self.new) (length bytes.now) };
}

/// Writes all of the bytes, in as many calls as the sink needs. The first call that fails or takes
/// nothing ends it. What went out until then is a front of the bytes.
pub fn write_whole<S: Sink>(sink: &mut S, bytes: &[u8]) -> Result<(), DeviceFailed>
    ensures whole { OnOk result (Appends (S.taken sink.old) (S.taken sink.new) bytes.now) }
    ensures front { OnErr result (AppendsFront (S.taken sink.old) (S.taken sink.new) bytes.now) }
    ensures failed { OnErr result (Failed (S.failures sink.old) (S.failures sink.new)) }
    ensures well { OnOk result (S.failures sink.new ≡ S.failures sink.old) }
    ensures assured { length bytes.now ≤ S.assured sink.old
        → IsOk result × (S.assured sink.old ≤ S.assured sink.new + length bytes.now) }
{
    let mut rest = bytes;
    while !rest.is_empty() {
        let count = sink.write(rest)?;
        if count == 0 {
            return Err(DeviceFailed);
        }
        rest = &rest[count..];
    }
    Ok(())
}
