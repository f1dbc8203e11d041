//! Replies, written to connections.

ghost use Rattle.std.specs.Prelude.{◌≡◌, ◌≢◌, Err, IsTrue};
ghost use Rattle.hh_devices.specs.DeviceChanges.{change};
ghost use Rattle.hh_names.specs.Faults.{memory_fault};
ghost use Rattle.hh_http_replies.specs.Writes.{WritesRefusal, WritesReply};
ghost use Rattle.hh_http_replies.specs.ReplyText.{reply_text};

use crate::refusal::{Refused, RequestRefusal};
use crate::reply_text::{memory_text, refused_text, reply_with};
use hh_devices::{DeviceFailed, Sink, write_whole};
use hh_names::{Fault, Refusal};
use hh_requests::Reply;
use std::alloc::{AllocError, Global};

/// Why a reply was not written.
#[derive(Clone, Copy, Debug, PartialEq, Eq)]
pub enum WriteFault {
    /// A call of the sink failed or took nothing, and a beginning of the reply was written.
    Write,
    /// Memory was refused, and nothing was written.
    Memory,
}

impl From<AllocError> for WriteFault {
    ghost use Rattle.hh_http_replies.specs.declared.reply.WriteFault.TheVariants.{Memory};

    ghost from_gives = { λ _ fault. fault ≡ Memory };

    fn from(_error: AllocError) -> WriteFault {
        WriteFault::Memory
    }
}

/// Writes a reply of the office (profile), or only its head if that is asked for. The reply that tells that
/// memory was refused takes no memory.
///
/// # Errors
///
/// `Write`: the sink failed or took nothing in this call, and a beginning of the reply was written.
/// `Memory`: the reply cannot be built, and nothing was written.
pub fn write_reply<S: Sink>(
    alloc: Global,
    reply: &Reply,
    head_only: bool,
    sink: &mut S,
) -> Result<(), WriteFault>
    ensures reply { WritesReply (change S.taken S.failures sink.old sink.new)
        (reply_text reply.now head_only) result }
    ensures no_memory { reply.now ≡ Reply.Refused memory_fault → result ≢ Err WriteFault.Memory }
{
    if tells_no_memory(reply) {
        return send(sink, memory_text(head_only));
    }
    let text = reply_with(alloc, "", reply, head_only)?;
    send(sink, text.as_bytes())
}

/// Whether a reply tells that memory was refused.
fn tells_no_memory(reply: &Reply) -> bool
    ensures yes { IsTrue result → reply.now ≡ Reply.Refused memory_fault }
    ensures no { reply.now ≡ Reply.Refused memory_fault → IsTrue result }
{
    matches!(
        reply,
        Reply::Refused(Fault {
            refusal: Refusal::Memory,
            row: None,
            column: None,
            unit: None,
            period: None,
        })
    )
}

/// Writes the reply to a request that is refused before the office is asked (profile), or only its head if
/// the head of a reply was asked for. If memory is refused for that reply, the reply that tells so is
/// written instead, which takes no memory.
///
/// # Errors
///
/// The sink failed or took nothing in this call, and a beginning of the reply was written.
pub fn write_refused<S: Sink>(
    alloc: Global,
    refused: &Refused,
    sink: &mut S,
) -> Result<(), DeviceFailed>
    ensures { WritesRefusal (change S.taken S.failures sink.old sink.new) refused.now result }
{
    if let RequestRefusal::Memory = refused.cause {
        return write_whole(sink, memory_text(refused.head_only));
    }
    match refused_text(alloc, refused) {
        Ok(text) => write_whole(sink, text.as_bytes()),
        Err(_) => write_whole(sink, memory_text(refused.head_only)),
    }
}

/// Writes a reply that was built.
fn send<S: Sink>(sink: &mut S, text: &[u8]) -> Result<(), WriteFault>
    ensures reply { WritesReply (change S.taken S.failures sink.old sink.new) text.now result }
    ensures no_memory { result ≢ Err WriteFault.Memory }
{
    match write_whole(sink, text) {
        Ok(()) => Ok(()),
        Err(DeviceFailed) => Err(WriteFault::Write),
    }
}
