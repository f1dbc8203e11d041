//! Whole heads.

ghost use Rattle.std.specs.Prelude.{◌≡◌, List, [], ◌∷◌, true, length, drop, All, IfOk, OnErr};
ghost use Rattle.httparse.specs.Grammar.{RequestHead};
ghost use Rattle.httparse.specs.Spans.{IsHeaderWithin, IsRequestAt, IsRequestWithin};
ghost use Rattle.hh_http_heads.specs.Headings.{are_several, asks_head, heading_of, values_in};

use crate::field::{Field, find};
use httparse::spans::{HeaderSpan, RequestSpans};

/// A head breaks a rule.
#[derive(Clone, Copy, Debug)]
pub struct BrokenRule;

/// A whole head, and the bytes that came after it.
#[derive(Clone, Copy)]
pub struct WholeHead<'b> {
    pub method: &'b [u8],
    pub target: &'b [u8],
    pub minor: u8,
    bytes: &'b [u8],
    headers: &'b [HeaderSpan],
    pub behind: &'b [u8],
    pub ghost within: { All (IsHeaderWithin (length bytes.now)) headers.now },
}

impl<'b> WholeHead<'b> {
    ghost use Rattle.hh_http_heads.specs.Heads.{heading_in, listed};

    /// The head at the beginning of bytes that the spans describe.
    pub fn of(bytes: &'b [u8], headers: &'b [HeaderSpan], spans: RequestSpans) -> WholeHead<'b>
        requires { IsRequestWithin bytes.now headers.now spans }
        ensures says { (head : RequestHead)
            → IsRequestAt bytes.entry.now headers.entry.now spans head
            → heading_in result ≡ heading_of head }
        ensures behind { result.behind.now ≡ drop spans.len bytes.entry.now }
    {
        WholeHead {
            method: spans.method.of(bytes),
            target: spans.path.of(bytes),
            minor: spans.version,
            bytes,
            headers: &headers[..spans.headers],
            behind: &bytes[spans.len..],
        }
    }

    /// Whether the request asks only for the head of a reply.
    pub fn asks_head(&self) -> bool
        ensures { result ≡ asks_head (heading_in self.now) }
    {
        self.method == b"HEAD".as_slice()
    }

    /// The value under a name, if it occurs at most once.
    ///
    /// # Errors
    ///
    /// It occurs several times: refusal 65.
    pub fn only(&self, name: &str) -> Result<Option<&'b [u8]>, BrokenRule>
        ensures one { IfOk result (λ value.
            values_in name.now (heading_in self.now).headers ≡ listed value) }
        ensures several { OnErr result
            (are_several (values_in name.now (heading_in self.now).headers) ≡ true) }
    {
        match find(self.bytes, self.headers, name) {
            Field::Absent => Ok(None),
            Field::Once(value) => Ok(Some(value)),
            Field::Repeated => Err(BrokenRule),
        }
    }
}
