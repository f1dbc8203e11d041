//! The heads of requests: which bytes are a head, and what it says.
//!
//! `read_front` reads until a head is whole, or none within the limits can come, or the source
//! ends, and reads no further. The grammar of the toolchain's crate `httparse` says which bytes are
//! a head (`WholeHead::of`). `Terms::of` gives the key and the length of the body, or answers that
//! the head breaks a rule.
#![tactic(auto)]

mod field;
mod front;
mod head;
mod length;
mod piece;
mod terms;

pub use front::{Front, MOST_HEAD_BYTES, MOST_HEADERS, read_front};
pub use head::{BrokenRule, WholeHead};
pub use piece::fill;
pub use terms::Terms;
