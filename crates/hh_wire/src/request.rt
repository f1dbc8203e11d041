//! Requests, read from connections.

ghost use Rattle.std.specs.Prelude.{◌≡◌, ℕ, List, ◌++◌, IfSome};
ghost use Rattle.std.specs.Io.KnownBytes.{prepend_known};
ghost use Rattle.hh_http_heads.specs.Heads.{HoldsTerms, heading_in};
ghost use Rattle.hh_wire.specs.Behind.{Asks, ReadsBehind};
ghost use Rattle.hh_wire.specs.Message.{CountsRead, FailsAwaiting, IsMessage, LacksBody, Message, Reads, asked_by, asked_with};
ghost use Rattle.hh_wire.specs.Stops.{CountsStop, StopsWith};
ghost use Rattle.hh_wire.specs.steps.Behind.{AsksFor};
ghost use Rattle.hh_wire.specs.steps.RouteRows.{rows};

use crate::body::read_body;
use crate::incoming::{Incoming, WireFault};
use crate::route::{action_at, method_of};
use crate::router::{Route, Routes};
use crate::stop::Stop;
use hh_devices::Source;
use hh_http_heads::{Front, MOST_HEAD_BYTES, MOST_HEADERS, Terms, WholeHead, read_front};
use hh_http_replies::{Refused, RequestRefusal};
use hh_requests::{Action, Bytes, Request};
use hh_rows::FileBody;
use httparse::spans::EMPTY_HEADER_SPAN;
use matchit::Router;
use std::alloc::Global;

/// The most bytes of a body (profile).
const MOST_BODY_BYTES: u64 = 1_048_576;

/// Reads a request to the office from what a client sends, in pieces of any lengths (profile). It reads no
/// further once the request is whole or refused. Memory is taken only for the body, for the key, and for
/// the routes if they aren't made yet.
///
/// # Errors
///
/// `Refused`: the bytes are no request. The first of these causes is told. `BadRequest`: there is no head,
/// or it is not complete, has more than 8,192 bytes or more than 32 headers, or breaks a rule.
/// `BodyTooLarge`. `BadRequest`: the body is not complete. `NoRoute`. `BadMethod`. `LengthRequired`. After
/// a head was read, `Memory` may take the place of any answer. `Read`: a call of the source failed in this
/// call, and the bytes before it needed more.
pub fn read_request<S: Source>(
    alloc: Global,
    routes: &mut Routes,
    source: &mut S,
) -> Result<Incoming, WireFault>
    ensures message { IfSome (S.remaining source.old) (λ bytes. Reads bytes result) }
    ensures awaited { FailsAwaiting result (S.remaining source.old) (S.remaining source.new) }
    ensures failed { CountsRead result (S.failures source.old) (S.failures source.new) }
{
    let mut buffer = [0u8; MOST_HEAD_BYTES];
    let mut headers = [EMPTY_HEADER_SPAN; MOST_HEADERS];
    match read_front(source, &mut buffer, &mut headers)? {
        Front::Nothing => Ok(Incoming::Closed),
        Front::NoHead => Err(WireFault::Refused(Refused {
            cause: RequestRefusal::BadRequest,
            head_only: false,
        })),
        Front::Head { read, spans } => {
            let head = WholeHead::of(&buffer[..read], &headers, spans);
            match read_behind(alloc, routes, source, &head) {
                Ok(request) => Ok(Incoming::Asked(request)),
                Err(stop) => Err(stop.behind(&head)),
            }
        }
    }
}

/// Bytes ask one thing: no two messages belong to the same bytes.
pub fn message_is_one()
    ensures { (bytes : List ℕ) (first second : Message)
        → IsMessage bytes first → IsMessage bytes second → first ≡ second }
{}

/// Reads what a head asks, with its body if it has one.
fn read_behind<S: Source>(
    alloc: Global,
    routes: &mut Routes,
    source: &mut S,
    head: &WholeHead<'_>,
) -> Result<Request, Stop>
    ensures comes { IfSome (S.remaining source.old) (λ rest.
        let heading = heading_in head.now in
        ReadsBehind heading (asked_by heading (head.now.behind.now ++ rest)) result) }
    ensures awaited { StopsWith (LacksBody (heading_in head.now)) result
        (prepend_known head.now.behind.now (S.remaining source.old)) (S.remaining source.new) }
    ensures failed { CountsStop result (S.failures source.old) (S.failures source.new) }
{
    let terms = Terms::of(head)?;
    let size = terms.length.unwrap_or(0);
    if size > MOST_BODY_BYTES {
        return Err(Stop::Refused(RequestRefusal::BodyTooLarge));
    }
    let body = read_body(alloc, source, head.behind, size as usize)?;
    Ok(request_with(alloc, routes, head, &terms, body)?)
}

/// What a head asks with a body.
fn request_with(
    alloc: Global,
    routes: &mut Routes,
    head: &WholeHead<'_>,
    terms: &Terms<'_>,
    body: Vec<u8>,
) -> Result<Request, RequestRefusal>
    requires { HoldsTerms (heading_in head.now) terms.now }
    ensures { let heading = heading_in head.now in
        Asks heading (asked_with heading body.items) result }
{
    let body = FileBody::new(alloc, body)?;
    let router = routes.take(alloc)?;
    let asked = action_asked(&router, head, terms, body);
    routes.put_back(router);
    let action = asked?;
    Ok(Request {
        key: Bytes::new(Vec::from_slice(alloc, terms.key)?),
        action,
    })
}

/// What a head asks for with a body, or why that is refused. It takes no memory.
fn action_asked(
    router: &Router<Route>,
    head: &WholeHead<'_>,
    terms: &Terms<'_>,
    body: FileBody,
) -> Result<Action, RequestRefusal>
    requires routes { router.now ≡ rows }
    requires terms { HoldsTerms (heading_in head.now) terms.now }
    ensures { let heading = heading_in head.now in
        AsksFor heading (asked_with heading body) result }
{
    let Some(action) = action_at(router, head.target, body) else {
        return Err(RequestRefusal::NoRoute);
    };
    let allow = method_of(&action);
    if head.method != allow.as_str().as_bytes() {
        return Err(RequestRefusal::BadMethod { allow });
    }
    if terms.length.is_none() && matches!(action, Action::Load(_)) {
        return Err(RequestRefusal::LengthRequired);
    }
    Ok(action)
}
