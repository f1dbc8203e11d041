//! What a command uses beside its outputs.

ghost use Rattle.std.specs.Prelude.{◌≡◌, ℕ, List, [], take, IfOk, IsErrOf, OnErr, Some, None};
ghost use Rattle.hh_inputs.specs.declared.inputs.InputFault.{InputFault};
ghost use Rattle.hh_sockets.specs.Ports.{IsBroughtBy, IsPortFor};
ghost use Rattle.hh_host.specs.Views.{HostView};

use crate::clock::ClockFailed;
use hh_inputs::InputFault;
use hh_sockets::{Listener, SocketFailed};
use std::alloc::{AllocError, Global};

/// What a command uses beside its outputs: files, ports of this machine's loopback interface, and the
/// clock.
pub trait Host {
    type Listener: Listener + Drop;

    /// What contracts see of it.
    ghost view: { Self → HostView };

    /// The first `most` bytes of the file at a path, or all of them if it has fewer. Each read opens the
    /// file again, and files may change between two reads.
    ///
    /// # Errors
    ///
    /// `Unreadable`: the file cannot be opened or read. `Memory`: memory was refused.
    fn read(&self, alloc: Global, path: &str, most: usize) -> Result<Vec<u8>, InputFault>
        ensures bytes { IfOk result (λ bytes. (all : List ℕ)
            × (view self.now).reads path.now (Some all) × (bytes.items ≡ take most all)) }
        ensures unreadable { IsErrOf result InputFault.Unreadable
            → (view self.now).reads path.now None };

    /// Listens on a port of the loopback interface, 127.0.0.1. For 0 the machine chooses a free one.
    /// Nothing has come yet, and what comes later is what the port may bring.
    fn listen(&self, port: u16) -> Result<Self::Listener, SocketFailed>
        ensures port { IfOk result (λ listener. IsPortFor port (Self.Listener.port_of listener)) }
        ensures begins { IfOk result (λ listener. Self.Listener.leads listener [] listener) }
        ensures brings { IfOk result (λ listener. IsBroughtBy Self.Listener.leads
            ((view self.now).ports.brings port) listener) }
        ensures refused { OnErr result ((view self.now).ports.refuses port) };

    /// The moment now, in whole seconds since 1970-01-01T00:00:00Z. Nothing is known about it but its
    /// range.
    fn now(&self) -> Result<i64, ClockFailed>;

    /// Why the file at a path cannot be read, in the system's words and on one line. It is `None` if the
    /// file can be read, or is a pipe or a device. The file is opened again and a byte of it is read, so
    /// this tells the state at the time of the call.
    ///
    /// # Errors
    ///
    /// Memory was refused for the words.
    fn why_unreadable(&self, alloc: Global, path: &str) -> Result<Option<String>, AllocError>;

    /// Why a port of the loopback interface cannot be listened on, in the system's words and on one line.
    /// It is `None` if the port can be listened on. The port is listened on again and released at once, so
    /// this tells the state at the time of the call.
    ///
    /// # Errors
    ///
    /// Memory was refused for the words.
    fn why_not_listening(&self, alloc: Global, port: u16) -> Result<Option<String>, AllocError>;
}
