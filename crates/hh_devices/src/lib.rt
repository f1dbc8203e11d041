//! Devices that take or give bytes: in memory, and by a reader or writer of std.
//!
//! A `Source` gives bytes, and a `Sink` takes them. Their contracts say which bytes were taken or
//! are left, where the device tells them, and count the calls that failed or took nothing, up to
//! the greatest u64. `write_whole` writes all bytes, or a beginning of them and answers that the
//! sink failed. A `MemorySource` and a `MemorySink` tell their bytes, and fail where they are told
//! to. No contract says what a real reader or writer gives or takes, or why it fails
//! (`StreamSource`, `StreamSink`): that is only tested.
#![tactic(auto)]

mod device;
mod memory_sink;
mod memory_source;
mod pace;
mod sink;
mod source;
mod stream;
mod stream_sink;
mod stream_source;

pub use device::DeviceFailed;
pub use memory_sink::MemorySink;
pub use memory_source::MemorySource;
pub use sink::{Sink, write_whole};
pub use source::Source;
pub use stream::{Reader, Writer};
pub use stream_sink::StreamSink;
pub use stream_source::StreamSource;
