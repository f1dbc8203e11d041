//! Listening on ports of the loopback interface, and what comes of it.

ghost use Rattle.std.specs.Prelude.{◌≡◌, ℕ, List, [], IfOk, OnErr};
ghost use Rattle.hh_sockets.specs.Arrivals.{Arrival, AwaitsOne, TakesBack};
ghost use Rattle.hh_sockets.specs.Ports.{IsBroughtBy, IsPortFor, Ports};

use hh_devices::{Sink, Source};
use std::io;

/// A port can't be listened on, or no connection came.
#[derive(Clone, Copy, Debug, PartialEq, Eq)]
pub struct SocketFailed;

impl From<io::Error> for SocketFailed {
    fn from(_error: io::Error) -> SocketFailed {
        SocketFailed
    }
}

/// The two ends of a connection: what comes in, and what goes out.
#[derive(Drop)]
pub struct Connection<S, K> {
    pub source: S,
    pub sink: K,
}

/// How much of what a client sends had been read when its connection was taken back.
#[derive(Clone, Copy, Debug, PartialEq, Eq)]
pub enum Received {
    /// All that it sends.
    Whole,
    /// A beginning. The client may still be sending.
    Beginning,
}

/// Listens on ports of the loopback interface, 127.0.0.1.
pub trait Loopback {
    type Listener: Listener + Drop;

    /// Which ports it may be impossible to listen on, and what may come on each.
    ghost ports: { Self → Ports };

    /// Listens on a port. For 0 the machine chooses a free one. Nothing has come yet, and what comes later
    /// is what the port may bring.
    fn listen(&self, port: u16) -> Result<Self::Listener, SocketFailed>
        ensures port { IfOk result (λ listener. IsPortFor port (Self.Listener.port_of listener)) }
        ensures begins { IfOk result (λ listener. Self.Listener.leads listener [] listener) }
        ensures brings { IfOk result (λ listener. IsBroughtBy Self.Listener.leads
            ((ports self.now).brings port) listener) }
        ensures refused { OnErr result ((ports self.now).refuses port) };
}

/// Awaits connections on a port.
pub trait Listener {
    type Source: Source + Drop;

    type Sink: Sink + Drop;

    /// The port.
    ghost port_of: { Self → ℕ };

    /// What came of awaiting connections, one after the other, led from one state of the listener to
    /// another. The last connection may still be in use. Nothing was read from it or written to it yet.
    ghost leads: { Self → List Arrival → Self → Type 0 };

    /// The port.
    fn port(&self) -> u16
        ensures { result ≡ port_of self.now };

    /// Awaits the next connection.
    fn accept(&mut self) -> Result<Connection<Self::Source, Self::Sink>, SocketFailed>
        ensures { AwaitsOne Self.Source.remaining Self.Source.failures Self.Sink.taken
            Self.Sink.failures leads self.old self.new result };

    /// Takes back the connection that was handed over last, so that its client can read what was written to
    /// it, whether all that it sends was read or not.
    fn close(&mut self, connection: Connection<Self::Source, Self::Sink>, received: Received)
        ensures { TakesBack Self.Source.remaining Self.Source.failures Self.Sink.taken
            Self.Sink.failures leads self.old self.new connection };
}
