//! Requests as the bytes of HTTP connections.
//!
//! `read_request` reads what a client sends. What the bytes of a connection ask is a relation
//! between all of the bytes and a message (`IsMessage`), whatever the pieces in which they come.
//! They ask exactly one thing (`message_is_one`). This holds of a source that tells its bytes, as
//! one in memory does. So a failed read is never taken for the end, and a cut request never for no
//! request. No read is made once the bytes decide what they ask (`awaited`).
#![tactic(auto)]

mod body;
mod incoming;
mod request;
mod route;
mod router;
mod stop;

pub use hh_http_replies::{Refused, RequestRefusal, WriteFault, write_refused, write_reply};
pub use incoming::{Incoming, WireFault};
pub use request::{message_is_one, read_request};
pub use router::Routes;
