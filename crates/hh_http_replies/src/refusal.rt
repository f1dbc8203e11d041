//! Requests that are refused before the office is asked.

ghost use Rattle.std.specs.Prelude.{◌≡◌};

use hh_names::Refusal;
use http::Method;
use std::alloc::AllocError;

/// Why a request is refused before the office is asked.
#[derive(Debug, Drop)]
pub enum RequestRefusal {
    /// There is no such path, or a part of it can't be read.
    NoRoute,
    /// The path is known but has another method, `allow`.
    BadMethod { allow: Method },
    /// A file was sent without its length.
    LengthRequired,
    /// The head is bad or too large, or the head or the body is not complete.
    BadRequest,
    /// The body is longer than the limit.
    BodyTooLarge,
    /// Memory was refused.
    Memory,
}

impl RequestRefusal {
    ghost use Rattle.hh_http_replies.specs.Causes.{refusal_of};

    /// The refusal that tells the cause.
    pub fn refusal(&self) -> Refusal
        ensures { result ≡ refusal_of self.now }
    {
        match self {
            RequestRefusal::NoRoute => Refusal::NoRoute,
            RequestRefusal::BadMethod { .. } => Refusal::BadMethod,
            RequestRefusal::LengthRequired => Refusal::LengthRequired,
            RequestRefusal::BadRequest => Refusal::BadRequest,
            RequestRefusal::BodyTooLarge => Refusal::BodyTooLarge,
            RequestRefusal::Memory => Refusal::Memory,
        }
    }
}

impl From<AllocError> for RequestRefusal {
    ghost use Rattle.hh_http_replies.specs.declared.refusal.RequestRefusal.TheVariants.{Memory};

    ghost from_gives = { λ _ refusal. refusal ≡ Memory };

    fn from(_error: AllocError) -> RequestRefusal {
        RequestRefusal::Memory
    }
}

/// A request that is refused.
#[derive(Debug, Drop)]
pub struct Refused {
    pub cause: RequestRefusal,
    /// Whether a whole head with the method HEAD was read, so that the reply is only a head.
    pub head_only: bool,
}
