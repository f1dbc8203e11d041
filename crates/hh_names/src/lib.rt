//! The names, accounts and refusals of the market, and the readers of their fields.
//!
//! `Word::read`, `Account::read`, `OperatorKey::read`, `PeriodNumber::read` and `read_yes_no` give
//! a value exactly if a field is in its grammar. `Account::cmp` orders accounts by the bytes of
//! their parties' ids, and then production before consumption. A `Fault` is a `Refusal` with its
//! places, and its text is the defined one (`fault_text`). `Refusal::number` and `Refusal::name`
//! give the number and the name by which a refusal is known. `Counterparties::refusal_beside` says
//! why a seller and a buyer are refused, and tests 35 before 36.
#![tactic(auto)]

mod account;
mod bytes;
mod fault;
mod fault_text;
mod operator_key;
mod period_number;
mod values;
mod word;
mod yes_no;

pub use account::{Account, Side};
pub use fault::{Fault, Refusal};
pub use hh_num::{Kwh, NetKwh, Pence, Percent, Price, Quantity, Scaled, Ticks, read_natural};
pub use operator_key::OperatorKey;
pub use period_number::PeriodNumber;
pub use values::{Contract, Counterparties, Reading, Reallocation};
pub use word::{
    AccessKey, AccessKeyAlphabet, Alphabet, FileName, FileNameAlphabet, PartyId, PartyIdAlphabet,
    Reference, ReferenceAlphabet, UnitId, UnitIdAlphabet, Word,
};
pub use yes_no::read_yes_no;
