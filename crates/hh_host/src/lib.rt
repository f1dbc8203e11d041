//! What a command uses beside its outputs: files, ports of this machine's loopback interface, and
//! the clock.
//!
//! Contracts see what the files and the ports of a `Host` may give as one value (`HostView`).
//! `Host::read` and `Host::listen` give what that value allows. `Clock::now` reads a clock once,
//! and a `FixedClock` always tells the same moment. Of the system (`RuntimeHost`) only the number
//! of a port and the range of a moment are known. Why it refuses a file or a port is text, and no
//! clause says anything of that text (`Host::why_unreadable`, `Host::why_not_listening`): it is
//! only tested.
#![tactic(auto)]

mod clock;
mod host;
mod reason;
mod system;

pub use clock::{Clock, ClockFailed, FixedClock};
pub use host::Host;
pub use system::{HostClock, RuntimeHost};
