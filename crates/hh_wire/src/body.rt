//! Bodies whose length is known.

ghost use Rattle.std.specs.Prelude.{◌≡◌, ◌<◌, ◌≤◌, ◌++◌, length, IfOk, IfSome, OnErr};
ghost use Rattle.std.specs.Io.KnownBytes.{prepend_known};
ghost use Rattle.hh_devices.specs.Devices.{CountsErr};
ghost use Rattle.hh_http_heads.specs.Found.{HasGiven};
ghost use Rattle.hh_wire.specs.Stops.{CountsStop, StopsWith};
ghost use Rattle.hh_wire.specs.steps.Stops.{Fills, FallsShort, ReadsBody};

use crate::stop::Stop;
use hh_devices::{DeviceFailed, Source};
use hh_http_heads::fill;
use hh_http_replies::RequestRefusal;
use std::alloc::Global;

/// Reads a body of this length. Its first bytes came with its head. Bytes after the body are left, and
/// nothing is read if the body is whole already.
///
/// # Errors
///
/// `BadRequest`: the source ends before the body does. `Memory`: memory for the body is refused. `Read`: a
/// call of the source failed.
pub(crate) fn read_body<S: Source>(
    alloc: Global,
    source: &mut S,
    behind: &[u8],
    size: usize,
) -> Result<Vec<u8>, Stop>
    ensures body { IfSome (S.remaining source.old) (λ rest.
        ReadsBody (behind.now ++ rest) size result) }
    ensures awaited { StopsWith (λ given. length given < size) result
        (prepend_known behind.now (S.remaining source.old)) (S.remaining source.new) }
    ensures failed { CountsStop result (S.failures source.old) (S.failures source.new) }
{
    let mut body = vec![in alloc; 0u8; size]?;
    let at_hand = &behind[..behind.len().min(size)];
    if fill_body(source, at_hand, &mut body)? {
        Ok(body)
    } else {
        Err(Stop::Refused(RequestRefusal::BadRequest))
    }
}

/// Fills a buffer with the bytes at hand, and then from a source. Answers whether there were enough.
fn fill_body<S: Source>(
    source: &mut S,
    at_hand: &[u8],
    body: &mut [u8],
) -> Result<bool, DeviceFailed>
    requires { length at_hand.now ≤ length body.old }
    ensures kept { length body.new ≡ length body.old }
    ensures filled { IfSome (S.remaining source.old) (λ rest.
        IfOk result (Fills (at_hand.now ++ rest) body.new)) }
    ensures awaited { OnErr result (HasGiven (FallsShort (length at_hand.now) (length body.old))
        (prepend_known at_hand.now (S.remaining source.old)) (S.remaining source.new)) }
    ensures failed { CountsErr result (S.failures source.old) (S.failures source.new) }
{
    let mut filled = at_hand.len();
    body[..filled].copy_from_slice(at_hand);
    while filled < body.len() {
        let count = fill(source, body, filled)?;
        if count == 0 {
            return Ok(false);
        }
        filled += count;
    }
    Ok(true)
}
