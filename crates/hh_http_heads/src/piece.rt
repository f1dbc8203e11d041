//! Bytes that come in pieces.

ghost use Rattle.std.specs.Prelude.{◌≡◌, ℕ, ◌+◌, ◌<◌, ◌≤◌, List, length, take, Option, IfOk, OnErr};
ghost use Rattle.std.specs.Io.KnownBytes.{Consumes, IsAtEnd, Keeps};
ghost use Rattle.hh_devices.specs.Devices.{CountsErr};

use hh_devices::{DeviceFailed, Source};

/// Reads once into the part of a buffer that is not filled yet. Answers how many bytes came. None come only
/// at the end of the source.
///
/// # Errors
///
/// The call of the source failed, and gave nothing.
pub fn fill<S: Source>(
    source: &mut S,
    buffer: &mut [u8],
    filled: usize,
) -> Result<usize, DeviceFailed>
    requires { filled < length buffer.old }
    ensures within { IfOk result (λ n. filled + n ≤ length buffer.old) }
    ensures kept { length buffer.new ≡ length buffer.old }
    ensures read { IfOk result (λ n. (before : Option (List ℕ)) →
        Consumes before (S.remaining source.old) (take filled buffer.old)
        → Consumes before (S.remaining source.new) (take (filled + n) buffer.new)) }
    ensures end { IfOk result (λ n. n ≡ 0 → IsAtEnd (S.remaining source.old)) }
    ensures untouched { OnErr result (Keeps (S.remaining source.old) (S.remaining source.new)) }
    ensures failed { CountsErr result (S.failures source.old) (S.failures source.new) }
{
    source.read(&mut buffer[filled..])
}
