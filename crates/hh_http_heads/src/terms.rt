//! What a head that keeps the rules says about its request.

ghost use Rattle.std.specs.Prelude.{◌≡◌, true, IfOk, OnErr};
ghost use Rattle.hh_http_heads.specs.Headings.{is_bad};
ghost use Rattle.hh_http_heads.specs.Heads.{HoldsTerms, heading_in};
ghost use Rattle.hh_http_heads.specs.steps.Heads.{length_in};

use crate::head::{BrokenRule, WholeHead};
use crate::length::read_length;

/// What a head says about its request.
#[derive(Clone, Copy)]
pub struct Terms<'b> {
    /// The key that is shown. It is empty if there is none.
    pub key: &'b [u8],
    /// The length of the body in bytes, if it is given. A larger one than the greatest `u64` is given as
    /// that.
    pub length: Option<u64>,
}

impl<'b> Terms<'b> {
    /// The key and the length of the body, if the head keeps the rules. With HTTP/1.1 there is a Host.
    /// Host, key and length occur at most once. The length is a number. The body is not coded.
    ///
    /// # Errors
    ///
    /// The head breaks one of these rules: refusal 65.
    pub fn of(head: &WholeHead<'b>) -> Result<Terms<'b>, BrokenRule>
        ensures kept { IfOk result (HoldsTerms (heading_in head.now)) }
        ensures broken { OnErr result (is_bad (heading_in head.now) ≡ true) }
    {
        let host = head.only("host")?;
        let key = head.only("x-office-key")?;
        let length = head.only("content-length")?;
        let coding = head.only("transfer-encoding")?;
        if coding.is_some() || (head.minor == 1 && host.is_none()) {
            return Err(BrokenRule);
        }
        Ok(Terms {
            key: key.unwrap_or(&[]),
            length: length_of(length)?,
        })
    }
}

/// The length that a text gives, if there is a text.
fn length_of(text: Option<&[u8]>) -> Result<Option<u64>, BrokenRule>
    ensures { result ≡ length_in text.entry }
{
    match text {
        Some(text) => match read_length(text) {
            Some(length) => Ok(Some(length)),
            None => Err(BrokenRule),
        },
        None => Ok(None),
    }
}
