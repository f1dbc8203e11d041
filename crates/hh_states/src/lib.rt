//! The states of the settlement machine, and the tables that represent them.
//!
//! The crate has definitions, which contracts of the crates above cite, and the order of keys
//! (`FileKey::cmp`). A `State` has all that was ever accepted. The machine begins with an office's
//! settings alone, and reaches the states that follow by accepted files and by runs (`IsReached`).
//! Tables represent a state if the machine reaches it, and they are those that `tables_of` finds
//! from it (`TablesRepresent`). What holds of such states is proved in `hh_state_laws`.
#![tactic(auto)]

mod file_key;
mod run_keys;

pub use file_key::FileKey;
pub use hh_calc::{AccountRow, PeriodData, PeriodResult};
pub use hh_rules::{
    Account, ContractRow, Counterparties, Fault, FileBody, FileKind, FileName, PartyId,
    PartyRegistration, PeriodNumber, Position, PositionKey, Reference, Refusal, Register, Row,
    Settings, SettlementPeriod, UnitId, UnitPeriod, UnitRegistration,
};
pub use hh_runs::{Pence, RunKey, RunKind, Summary, Ticks};
pub use run_keys::{CreditKey, PostingKey, ResultKey};
