//! Why reading ends before a request is whole.

ghost use Rattle.std.specs.Prelude.{◌≡◌};

use crate::incoming::WireFault;
use hh_devices::DeviceFailed;
use hh_http_heads::{BrokenRule, WholeHead};
use hh_http_replies::{Refused, RequestRefusal};
use std::alloc::AllocError;

/// Why reading ends before a request is whole.
#[derive(Debug, Drop)]
pub(crate) enum Stop {
    /// A call of the source failed.
    Read,
    /// The request is refused.
    Refused(RequestRefusal),
}

impl From<DeviceFailed> for Stop {
    ghost use Rattle.hh_wire.specs.declared.stop.Stop.TheVariants.{Read};

    ghost from_gives = { λ _ stop. stop ≡ Read };

    fn from(_failed: DeviceFailed) -> Stop {
        Stop::Read
    }
}

impl From<AllocError> for Stop {
    ghost use Rattle.hh_http_replies.specs.declared.refusal.RequestRefusal.TheVariants.{Memory};
    ghost use Rattle.hh_wire.specs.declared.stop.Stop.TheVariants.{Refused};

    ghost from_gives = { λ _ stop. stop ≡ Refused Memory };

    fn from(_error: AllocError) -> Stop {
        Stop::Refused(RequestRefusal::Memory)
    }
}

impl From<RequestRefusal> for Stop {
    ghost use Rattle.hh_wire.specs.declared.stop.Stop.TheVariants.{Refused};

    ghost from_gives = { λ refusal stop. stop ≡ Refused refusal };

    fn from(refusal: RequestRefusal) -> Stop {
        Stop::Refused(refusal)
    }
}

impl From<BrokenRule> for Stop {
    ghost use Rattle.hh_http_replies.specs.declared.refusal.RequestRefusal.TheVariants.{BadRequest};
    ghost use Rattle.hh_wire.specs.declared.stop.Stop.TheVariants.{Refused};

    ghost from_gives = { λ _ stop. stop ≡ Refused BadRequest };

    fn from(_broken: BrokenRule) -> Stop {
        Stop::Refused(RequestRefusal::BadRequest)
    }
}

impl Stop {
    ghost use Rattle.hh_wire.specs.steps.Behind.{fault_behind};
    ghost use Rattle.hh_http_heads.specs.Heads.{heading_in};

    /// The fault of a request after its head was read.
    pub fn behind(self, head: &WholeHead<'_>) -> WireFault
        ensures { result ≡ fault_behind (heading_in head.now) self }
    {
        match self {
            Stop::Read => WireFault::Read,
            Stop::Refused(cause) => WireFault::Refused(Refused {
                cause,
                head_only: head.asks_head(),
            }),
        }
    }
}
