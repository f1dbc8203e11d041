//! Replies as the bytes of HTTP connections.
//!
//! `write_reply` writes the bytes of the office's reply, and `write_refused` those of a request
//! that is refused before the office is asked. If a write fails, a beginning of them was written.
//! The reply that reports refused memory takes no memory (`no_memory`). So a request that is
//! refused before the office is asked always gets a reply, if the writes succeed. A request that
//! the office handled may get none.
#![tactic(auto)]

mod member_text;
mod refusal;
mod reply;
mod reply_text;
mod reply_value;
mod status;

pub use refusal::{Refused, RequestRefusal};
pub use reply::{WriteFault, write_refused, write_reply};
