//! Replies as bytes.

ghost use Rattle.std.specs.Prelude.{◌≡◌, string_bytes, IfOk};
ghost use Rattle.serde_json.specs.Written.{compact_text};
ghost use Rattle.hh_http_replies.specs.Bodies.{reply_body};
ghost use Rattle.hh_http_replies.specs.ReplyText.{allow_line, memory_text, refused_text, reply_head, reply_with};

use crate::refusal::{Refused, RequestRefusal};
use crate::reply_value::reply_value;
use crate::status::{phrase_of, reply_status};
use hh_names::Fault;
use hh_requests::Reply;
use std::alloc::{AllocError, Global};

/// The head of a reply with a status, a phrase, the length of the body in bytes, and one more line.
fn reply_head(
    alloc: Global,
    status: u16,
    phrase: &str,
    size: usize,
    line: &str,
) -> Result<String, AllocError>
    ensures { IfOk result (λ text.
        string_bytes text ≡ reply_head status phrase.now size line.now) }
{
    format!(in alloc;
        "HTTP/1.1 {status} {phrase}\r\nContent-Type: application/json\r\n\
         Content-Length: {size}\r\nConnection: close\r\n{line}\r\n"
    )
}

/// The body of a reply.
fn body_text(alloc: Global, reply: &Reply) -> Result<String, AllocError>
    ensures { IfOk result (λ text. string_bytes text ≡ compact_text (reply_body reply.now)) }
{
    let value = reply_value(alloc, reply)?;
    value.to_string(alloc)
}

/// A reply with one more line in its head, or only its head if that is asked for.
pub(crate) fn reply_with(
    alloc: Global,
    line: &str,
    reply: &Reply,
    head_only: bool,
) -> Result<String, AllocError>
    ensures { IfOk result (λ text. string_bytes text ≡ reply_with line.now reply.now head_only) }
{
    let body = body_text(alloc, reply)?;
    let status = reply_status(reply).as_u16();
    let mut text = reply_head(alloc, status, phrase_of(status), body.len(), line)?;
    if head_only {
        return Ok(text);
    }
    text.push_str(&body)?;
    Ok(text)
}

/// The line that tells the method of a path.
fn allow_line(alloc: Global, cause: &RequestRefusal) -> Result<String, AllocError>
    ensures { IfOk result (λ line. string_bytes line ≡ allow_line cause.now) }
{
    match cause {
        RequestRefusal::BadMethod { allow } => {
            let method = allow.as_str();
            format!(in alloc; "Allow: {method}\r\n")
        }
        RequestRefusal::NoRoute
        | RequestRefusal::LengthRequired
        | RequestRefusal::BadRequest
        | RequestRefusal::BodyTooLarge
        | RequestRefusal::Memory => Ok(String::new(alloc)),
    }
}

/// The reply to a request that is refused before the office is asked.
pub(crate) fn refused_text(alloc: Global, refused: &Refused) -> Result<String, AllocError>
    ensures { IfOk result (λ text. string_bytes text ≡ refused_text refused.now) }
{
    let line = allow_line(alloc, &refused.cause)?;
    let reply = Reply::Refused(Fault::of(refused.cause.refusal()));
    reply_with(alloc, &line, &reply, refused.head_only)
}

/// The reply that tells that memory was refused. It takes no memory.
pub(crate) fn memory_text(head_only: bool) -> &'static [u8]
    ensures { result.now ≡ memory_text head_only }
{
    if head_only { MEMORY_HEAD } else { MEMORY_REPLY }
}

/// The head of that reply.
const MEMORY_HEAD: &[u8] = b"HTTP/1.1 503 Service Unavailable\r\n\
    Content-Type: application/json\r\nContent-Length: 30\r\nConnection: close\r\n\r\n";

/// The whole of it.
const MEMORY_REPLY: &[u8] = b"HTTP/1.1 503 Service Unavailable\r\n\
    Content-Type: application/json\r\nContent-Length: 30\r\nConnection: close\r\n\r\n\
    {\"name\":\"Memory\",\"refused\":90}";
