//! Connections that are awaited on ports of this machine's loopback interface.
//!
//! What comes on a port is a list, with an entry for each time that a connection was awaited
//! (`Listener::accept`). If one came, its entry (`Exchange`) says how each of its two ends was when
//! it was handed over, and when it was taken back (`Listener::close`). A `MemoryLoopback` has such
//! lists in memory. Of the sockets of the system (`RuntimeLoopback`) only the port's number is
//! known, how often a client is read (`CountedReader`), and which time it is given (`TimeLimit`,
//! `TimedStream`). A source around a client's reader fails by itself from the 4,097th read on. No
//! clause ties the given time to how long the system waits, or says what comes on its ports: that
//! is only tested.
#![tactic(auto)]

mod counted_reader;
mod loopback;
mod memory;
mod runtime;
mod time_limit;
mod timed_stream;

pub use counted_reader::CountedReader;
pub use loopback::{Connection, Listener, Loopback, Received, SocketFailed};
pub use memory::{MemoryListener, MemoryLoopback, MemoryPort};
pub use runtime::{RuntimeListener, RuntimeLoopback};
pub use time_limit::TimeLimit;
pub use timed_stream::TimedStream;
