//! The rows of the six kinds of file, their keys, and an office's settings.
//!
//! A `Row` is of one of six kinds, and the types of its fields keep their grammars and ranges.
//! `FileKind::read`, `LeadMinutes::read` and `DateRange::read_to` give a value exactly if a text
//! has one. A `DateRange` never ends before it begins (`DateRange::ends`). `FileBody::share` gives
//! the same bytes of a file to one more holder.
#![tactic(auto)]

mod date_range;
mod file_body;
mod file_kind;
mod keys;
mod rows;
mod settings;
mod settlement_period;

pub use date_range::DateRange;
pub use file_body::FileBody;
pub use file_kind::FileKind;
pub use hh_names::{Account, Fault, FileName, Kwh, NetKwh, Pence, Percent, PeriodNumber, Price};
pub use hh_time::{Day, SettlementDate, deadline};
pub use keys::{ContractKey, LeadKey, ReallocationKey, UnitPeriod};
pub use rows::{
    ContractRow, LeadTerm, MeterRow, PartyRegistration, PartyRow, PriceRow, ReallocationRow, Row,
    UnitRegistration, UnitRow,
};
pub use settings::{LeadMinutes, Settings};
pub use settlement_period::SettlementPeriod;
