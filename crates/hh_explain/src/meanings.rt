//! What refusals mean if no file tells more about them.

use hh_names::{Fault, Refusal};
use std::alloc::{AllocError, Global};

/// The most bytes that a script may have.
const MOST_SCRIPT_BYTES: usize = 16_777_216;

/// Why the script at a path isn't run.
pub fn script_refused(alloc: Global, path: &str, fault: &Fault) -> Result<String, AllocError> {
    match fault.refusal {
        Refusal::FileTooLarge => too_large(alloc, path, MOST_SCRIPT_BYTES),
        _ => at_path(alloc, path, fault),
    }
}

/// Tells that a file has too many bytes.
pub(crate) fn too_large(alloc: Global, path: &str, most: usize) -> Result<String, AllocError> {
    format!(in alloc; "{path}: it has more than {most} bytes")
}

/// A path, and what a refusal means.
pub(crate) fn at_path(alloc: Global, path: &str, fault: &Fault) -> Result<String, AllocError> {
    let meaning = refused(fault);
    format!(in alloc; "{path}: {meaning}")
}

/// What a refusal means, whatever is refused.
pub fn refused(fault: &Fault) -> &'static str {
    match fault.refusal {
        Refusal::FileTooLarge => "the file has too many bytes",
        Refusal::TooManyRows => "the file has too many rows",
        Refusal::BadHeader => "the file has another header, or none",
        Refusal::BadRecord => "a row has more or fewer fields than the header",
        Refusal::BadField => "a field is off its grammar or range",
        Refusal::FileChanged => "a file of this kind and name was accepted with other bytes",
        Refusal::UnknownParty => "a party isn't registered",
        Refusal::UnknownUnit => "the unit isn't registered",
        Refusal::NotEffective => "the date is outside a registered range of dates",
        Refusal::NoSuchPeriod => "the date has no such period",
        Refusal::SameAccount => "the seller is the buyer",
        Refusal::ReferenceMoved => "the first row of the reference has another seller or buyer",
        Refusal::OwnLead => "the account is the unit's lead account",
        Refusal::OverHundred => "more than 100 percent of the unit would be reallocated",
        Refusal::ShrinksRange => "the registered range of dates would shrink",
        Refusal::UnitMoved => {
            "the unit has another mark, or the row's account can't lead it from that date on"
        }
        Refusal::LeadIsSubsidiary => "the row's lead account has a part of the unit in force",
        Refusal::TooMany => "as many are registered as may be",
        Refusal::RunOrder => "the date has a later kind of run already",
        Refusal::NoInitialRun => "the date has no run, and its first is SF",
        Refusal::DayNotOver => "the date isn't over at the moment of the run",
        Refusal::MissingPrice => "a period has no price",
        Refusal::MissingMeter => "a unit has no reading for a period",
        Refusal::TooLarge => "a figure of a period passes a limit of settlement",
        Refusal::Forbidden => "the key that is shown isn't the operator's",
        Refusal::NoRoute => "there is no such path",
        Refusal::BadMethod => "the path has another method",
        Refusal::NoRun => "the date has no such run",
        Refusal::LengthRequired => "the file came without its length",
        Refusal::BadRequest => "the request is off its form, or was cut",
        Refusal::BodyTooLarge => "the body has too many bytes",
        Refusal::Memory => "the system refused memory",
        Refusal::Store => {
            "the database can't be used, as when another program has it open, an earlier version made it (settle migrate makes it usable), or it is no office's"
        }
    }
}
