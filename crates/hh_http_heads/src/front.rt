//! The head of a request at the beginning of what a connection gives.

ghost use Rattle.std.specs.Prelude.{◌≡◌, ◌≤◌, length, take, IfOk, OnErr};
ghost use Rattle.hh_devices.specs.Devices.{CountsErr};
ghost use Rattle.hh_http_heads.specs.Fronts.{AwaitsHead, most_head_bytes, most_headers};
ghost use Rattle.hh_http_heads.specs.Found.{FindsFront, HasGiven};
ghost use Rattle.hh_http_heads.specs.steps.Found.{Parses};

use crate::piece::fill;
use hh_devices::{DeviceFailed, Source};
use httparse::Status;
use httparse::spans::{HeaderSpan, RequestSpans, parse_request};

/// The most bytes of a head, with its empty line and the empty lines before it (profile).
pub const MOST_HEAD_BYTES: usize = 8_192;

/// The most headers of a head (profile).
pub const MOST_HEADERS: usize = 32;

/// What is at the beginning of what a source gives.
#[derive(Drop)]
pub enum Front {
    /// The source ended before its first byte.
    Nothing,
    /// No head within the limits.
    NoHead,
    /// A head. `read` bytes were read, which may include bytes after it.
    Head { read: usize, spans: RequestSpans },
}

/// Reads until a head is whole, or no head within the limits can come, or the source ends (profile). It
/// reads no further. The buffer has room for `MOST_HEAD_BYTES` and the spans for `MOST_HEADERS`.
///
/// # Errors
///
/// A call of the source failed. The bytes before it were the beginning of a head, and needed more.
pub fn read_front<S: Source>(
    source: &mut S,
    buffer: &mut [u8],
    headers: &mut [HeaderSpan],
) -> Result<Front, DeviceFailed>
    requires room { length buffer.old ≡ most_head_bytes }
    requires spans { length headers.old ≡ most_headers }
    ensures front { IfOk result (FindsFront (S.remaining source.old) (S.remaining source.new)
        buffer.new headers.new) }
    ensures awaited { OnErr result
        (HasGiven AwaitsHead (S.remaining source.old) (S.remaining source.new)) }
    ensures failed { CountsErr result (S.failures source.old) (S.failures source.new) }
{
    let mut read = 0;
    while read < buffer.len() {
        let count = fill(source, buffer, read)?;
        if count == 0 {
            return Ok(if read == 0 {
                Front::Nothing
            } else {
                Front::NoHead
            });
        }
        read += count;
        match parse(&*buffer, read, headers) {
            Parsed::Whole(spans) => return Ok(Front::Head { read, spans }),
            Parsed::Part => {}
            Parsed::Refused => return Ok(Front::NoHead),
        }
    }
    Ok(Front::NoHead)
}

/// What the parser says about the bytes so far.
#[derive(Drop)]
enum Parsed {
    /// They begin with a whole head.
    Whole(RequestSpans),
    /// They begin with no whole head yet.
    Part,
    /// They begin with no head that has few enough headers.
    Refused,
}

/// What the parser says about the first bytes of a buffer.
fn parse(buffer: &[u8], read: usize, headers: &mut [HeaderSpan]) -> Parsed
    requires { read ≤ length buffer.now }
    ensures answer { Parses (take read buffer.now) (length headers.old) headers.new result }
    ensures kept { length headers.new ≡ length headers.old }
{
    match parse_request(&buffer[..read], headers) {
        Ok(Status::Complete(spans)) => Parsed::Whole(spans),
        Ok(Status::Partial) => Parsed::Part,
        Err(_) => Parsed::Refused,
    }
}
