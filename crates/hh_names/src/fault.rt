//! Refusals: why a file, a row, a run or an enquiry is not accepted.

ghost use Rattle.std.specs.Prelude.{◌≡◌};
ghost use Rattle.hh_names.specs.Faults.{field_fault, plain_fault, refusal_name, refusal_number, row_fault};

use crate::period_number::PeriodNumber;
use crate::word::UnitId;
use std::alloc::{AllocError, AllocFailed};

/// The kinds of refusal.
#[derive(Clone, Copy, Debug, PartialEq, Eq)]
pub enum Refusal {
    /// The file has more bytes than the limit.
    FileTooLarge,
    /// The file has more rows than the limit.
    TooManyRows,
    /// The first record is not the header, or there is none.
    BadHeader,
    /// A record has another number of fields than the header.
    BadRecord,
    /// A field is off its grammar or range, or a range of dates ends before it begins.
    BadField,
    /// A file of this kind and name was accepted with other bytes before.
    FileChanged,
    /// A party, or the party of an account, is not registered.
    UnknownParty,
    /// The unit is not registered.
    UnknownUnit,
    /// The date is outside the range of the unit or of an account's party. For a row of units: its
    /// range is not inside that of its party.
    NotEffective,
    /// The number of the period is above the date's count.
    NoSuchPeriod,
    /// Seller and buyer are the same account.
    SameAccount,
    /// The reference has another seller or buyer already.
    ReferenceMoved,
    /// The reallocation is to the unit's own lead account.
    OwnLead,
    /// More than 100 percent of the unit would be reallocated.
    OverHundred,
    /// A known party or unit would get a smaller range.
    ShrinksRange,
    /// A known unit would get another party, side or interconnector mark.
    UnitMoved,
    /// The new lead account is a subsidiary of the unit.
    LeadIsSubsidiary,
    /// A new party or unit would be above the limit.
    TooMany,
    /// The kind of run comes before the latest run of the date.
    RunOrder,
    /// The date has no initial settlement run.
    NoInitialRun,
    /// The Settlement Day is not over.
    DayNotOver,
    /// A period has no price.
    MissingPrice,
    /// A unit has no meter row in a period.
    MissingMeter,
    /// A figure of a period is over a limit.
    TooLarge,
    /// The key does not allow the request.
    Forbidden,
    /// There is no such path.
    NoRoute,
    /// The path does not allow this method.
    BadMethod,
    /// The date has no such run that holds the account.
    NoRun,
    /// A file was sent without its length.
    LengthRequired,
    /// The request is bad, cut or oversized.
    BadRequest,
    /// The body is longer than the limit.
    BodyTooLarge,
    /// Memory was refused.
    Memory,
    /// The database refused, or holds no tables of this version.
    Store,
}

impl Refusal {
    /// The number by which the refusal is known, 10 to 91.
    pub fn number(self) -> u8
        ensures { result ≡ refusal_number self }
    {
        match self {
            Refusal::FileTooLarge => 10,
            Refusal::TooManyRows => 11,
            Refusal::BadHeader => 12,
            Refusal::BadRecord => 13,
            Refusal::BadField => 14,
            Refusal::FileChanged => 20,
            Refusal::UnknownParty => 30,
            Refusal::UnknownUnit => 31,
            Refusal::NotEffective => 33,
            Refusal::NoSuchPeriod => 34,
            Refusal::SameAccount => 35,
            Refusal::ReferenceMoved => 36,
            Refusal::OwnLead => 37,
            Refusal::OverHundred => 38,
            Refusal::ShrinksRange => 39,
            Refusal::UnitMoved => 40,
            Refusal::LeadIsSubsidiary => 41,
            Refusal::TooMany => 42,
            Refusal::RunOrder => 50,
            Refusal::NoInitialRun => 51,
            Refusal::DayNotOver => 52,
            Refusal::MissingPrice => 53,
            Refusal::MissingMeter => 54,
            Refusal::TooLarge => 55,
            Refusal::Forbidden => 60,
            Refusal::NoRoute => 61,
            Refusal::BadMethod => 62,
            Refusal::NoRun => 63,
            Refusal::LengthRequired => 64,
            Refusal::BadRequest => 65,
            Refusal::BodyTooLarge => 66,
            Refusal::Memory => 90,
            Refusal::Store => 91,
        }
    }

    /// The name by which the refusal is known.
    pub fn name(self) -> &'static str
        ensures { result.now ≡ refusal_name self }
    {
        match self {
            Refusal::FileTooLarge => "FileTooLarge",
            Refusal::TooManyRows => "TooManyRows",
            Refusal::BadHeader => "BadHeader",
            Refusal::BadRecord => "BadRecord",
            Refusal::BadField => "BadField",
            Refusal::FileChanged => "FileChanged",
            Refusal::UnknownParty => "UnknownParty",
            Refusal::UnknownUnit => "UnknownUnit",
            Refusal::NotEffective => "NotEffective",
            Refusal::NoSuchPeriod => "NoSuchPeriod",
            Refusal::SameAccount => "SameAccount",
            Refusal::ReferenceMoved => "ReferenceMoved",
            Refusal::OwnLead => "OwnLead",
            Refusal::OverHundred => "OverHundred",
            Refusal::ShrinksRange => "ShrinksRange",
            Refusal::UnitMoved => "UnitMoved",
            Refusal::LeadIsSubsidiary => "LeadIsSubsidiary",
            Refusal::TooMany => "TooMany",
            Refusal::RunOrder => "RunOrder",
            Refusal::NoInitialRun => "NoInitialRun",
            Refusal::DayNotOver => "DayNotOver",
            Refusal::MissingPrice => "MissingPrice",
            Refusal::MissingMeter => "MissingMeter",
            Refusal::TooLarge => "TooLarge",
            Refusal::Forbidden => "Forbidden",
            Refusal::NoRoute => "NoRoute",
            Refusal::BadMethod => "BadMethod",
            Refusal::NoRun => "NoRun",
            Refusal::LengthRequired => "LengthRequired",
            Refusal::BadRequest => "BadRequest",
            Refusal::BodyTooLarge => "BodyTooLarge",
            Refusal::Memory => "Memory",
            Refusal::Store => "Store",
        }
    }
}

/// A refusal, with its places. Rows are numbered from 1 without the header, columns from 1.
#[derive(Clone, Copy, Debug, PartialEq, Eq)]
pub struct Fault {
    pub refusal: Refusal,
    pub row: Option<u32>,
    pub column: Option<u32>,
    pub unit: Option<UnitId>,
    pub period: Option<PeriodNumber>,
}

impl Fault {
    /// A refusal with no place.
    pub fn of(refusal: Refusal) -> Fault
        ensures { result ≡ plain_fault refusal }
    {
        Fault {
            refusal,
            row: None,
            column: None,
            unit: None,
            period: None,
        }
    }

    /// A refusal of a row.
    pub fn at_row(refusal: Refusal, row: u32) -> Fault
        ensures { result ≡ row_fault refusal row }
    {
        Fault {
            row: Some(row),
            ..Fault::of(refusal)
        }
    }

    /// The refusal of a field that is off its grammar or range.
    pub fn at_field(row: u32, column: u32) -> Fault
        ensures { result ≡ field_fault row column }
    {
        Fault {
            row: Some(row),
            column: Some(column),
            ..Fault::of(Refusal::BadField)
        }
    }
}

impl From<AllocError> for Fault {
    ghost use Rattle.hh_names.specs.Faults.{memory_fault};

    ghost from_gives = { λ _ fault. fault ≡ memory_fault };

    fn from(_error: AllocError) -> Fault {
        Fault::of(Refusal::Memory)
    }
}

impl<T: Drop> From<AllocFailed<T>> for Fault {
    ghost use Rattle.hh_names.specs.Faults.{memory_fault};

    ghost from_gives = { λ _ fault. fault ≡ memory_fault };

    fn from(_error: AllocFailed<T>) -> Fault {
        Fault::of(Refusal::Memory)
    }
}
