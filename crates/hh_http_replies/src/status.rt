//! The statuses of replies, and their phrases.

ghost use Rattle.std.specs.Prelude.{◌≡◌};
ghost use Rattle.hh_http_replies.specs.Statuses.{phrase_of, reply_status, status_of};

use hh_names::Refusal;
use hh_requests::Reply;
use http::StatusCode;

/// The status of a refusal's reply (profile).
pub(crate) fn status_of(refusal: Refusal) -> StatusCode
    ensures { result ≡ status_of refusal }
{
    match refusal {
        Refusal::TooManyRows
        | Refusal::BadHeader
        | Refusal::BadRecord
        | Refusal::BadField
        | Refusal::BadRequest => StatusCode::BAD_REQUEST,
        Refusal::Forbidden => StatusCode::FORBIDDEN,
        Refusal::NoRoute | Refusal::NoRun => StatusCode::NOT_FOUND,
        Refusal::BadMethod => StatusCode::METHOD_NOT_ALLOWED,
        Refusal::FileChanged
        | Refusal::RunOrder
        | Refusal::NoInitialRun
        | Refusal::DayNotOver
        | Refusal::MissingPrice
        | Refusal::MissingMeter
        | Refusal::TooLarge => StatusCode::CONFLICT,
        Refusal::LengthRequired => StatusCode::LENGTH_REQUIRED,
        Refusal::FileTooLarge | Refusal::BodyTooLarge => StatusCode::PAYLOAD_TOO_LARGE,
        Refusal::UnknownParty
        | Refusal::UnknownUnit
        | Refusal::NotEffective
        | Refusal::NoSuchPeriod
        | Refusal::SameAccount
        | Refusal::ReferenceMoved
        | Refusal::OwnLead
        | Refusal::OverHundred
        | Refusal::ShrinksRange
        | Refusal::UnitMoved
        | Refusal::LeadIsSubsidiary
        | Refusal::TooMany => StatusCode::UNPROCESSABLE_ENTITY,
        Refusal::Memory | Refusal::Store => StatusCode::SERVICE_UNAVAILABLE,
    }
}

/// The status of a reply (profile).
pub(crate) fn reply_status(reply: &Reply) -> StatusCode
    ensures { result ≡ reply_status reply.now }
{
    match reply {
        Reply::Refused(fault) => status_of(fault.refusal),
        Reply::Loaded(_)
        | Reply::Ran { .. }
        | Reply::Account(_)
        | Reply::Balance { .. }
        | Reply::Contracts(_)
        | Reply::Runs(_) => StatusCode::OK,
    }
}

/// The phrase of a status (profile). This is the office's own table, because the crate's names for 413 and
/// 422 are older ones.
pub(crate) fn phrase_of(status: u16) -> &'static str
    ensures { result.now ≡ phrase_of status }
{
    match status {
        200 => "OK",
        400 => "Bad Request",
        403 => "Forbidden",
        404 => "Not Found",
        405 => "Method Not Allowed",
        409 => "Conflict",
        411 => "Length Required",
        413 => "Content Too Large",
        422 => "Unprocessable Content",
        _ => "Service Unavailable",
    }
}
