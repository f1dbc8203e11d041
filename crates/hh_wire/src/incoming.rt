//! What comes in over a connection.

ghost use Rattle.std.specs.Prelude.{◌≡◌};

use hh_devices::DeviceFailed;
use hh_http_replies::Refused;
use hh_requests::Request;

/// What a client sent.
#[derive(Debug, Drop)]
pub enum Incoming {
    /// Nothing: it closed before it sent a byte.
    Closed,
    /// A request to the office.
    Asked(Request),
}

/// Why no request comes from a connection.
#[derive(Debug, Drop)]
pub enum WireFault {
    /// A call of the source failed.
    Read,
    /// The request is refused.
    Refused(Refused),
}

impl From<DeviceFailed> for WireFault {
    ghost use Rattle.hh_wire.specs.declared.incoming.WireFault.TheVariants.{Read};

    ghost from_gives = { λ _ fault. fault ≡ Read };

    fn from(_failed: DeviceFailed) -> WireFault {
        WireFault::Read
    }
}
