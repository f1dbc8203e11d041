//! The host of the system.

ghost use Rattle.std.specs.Prelude.{⊤};

use crate::clock::{Clock, ClockFailed};
use crate::host::Host;
use crate::reason::{try_file, try_port, words_of};
use hh_inputs::{FileInputs, InputFault, Inputs, RuntimeFiles};
use hh_sockets::{Loopback, RuntimeListener, RuntimeLoopback, SocketFailed};
use std::alloc::{AllocError, Global};
use std::net::Net;
use std::rt::Files;
use std::time::{SystemTime, UNIX_EPOCH};

/// The host of the system. No clause of std says what is read at a path, what comes on a port, or what the
/// clock tells, so no clause here says more than a port's number.
#[derive(Clone, Copy)]
pub struct RuntimeHost<'a, R>(pub &'a R);

impl<'a, R: Files + Net + std::rt::Clock> Host for RuntimeHost<'a, R> {
    ghost use Rattle.hh_host.specs.Views.{any_view};

    type Listener = RuntimeListener<'a, R::Listener, R>;

    ghost view = { λ _. any_view };

    fn read(&self, alloc: Global, path: &str, most: usize) -> Result<Vec<u8>, InputFault> {
        FileInputs(RuntimeFiles(self.0)).read(alloc, path, most)
    }

    fn listen(&self, port: u16) -> Result<RuntimeListener<'a, R::Listener, R>, SocketFailed> {
        RuntimeLoopback(self.0).listen(port)
    }

    /// A clock that is set before 1970 tells no moment.
    fn now(&self) -> Result<i64, ClockFailed> {
        let Ok(since) = SystemTime::now(self.0)?.duration_since(UNIX_EPOCH) else {
            return Err(ClockFailed);
        };
        i64::try_from(since.as_secs()).map_err(|_| ClockFailed)
    }

    fn why_unreadable(&self, alloc: Global, path: &str) -> Result<Option<String>, AllocError> {
        words_of(alloc, try_file(self.0, path))
    }

    fn why_not_listening(&self, alloc: Global, port: u16) -> Result<Option<String>, AllocError> {
        words_of(alloc, try_port(self.0, port))
    }
}

/// The clock of a host. It is read again each time.
#[derive(Clone, Copy)]
pub struct HostClock<'a, H>(pub &'a H);

impl<H: Host> Clock for HostClock<'_, H> {
    ghost leads = { λ _ _ _. ⊤ };

    fn now(&mut self) -> Result<i64, ClockFailed> {
        self.0.now()
    }
}
