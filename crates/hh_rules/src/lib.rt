//! The register of parties, units, references and rows in force, and the rules by which a row is
//! accepted or refused.
//!
//! A `Register` may hold a part of what is registered and in force. It serves for some rows
//! (`ServesFor`) if it has what the whole has of all that they are judged by, and the rows in force
//! of their keys. `Register::judge_file` judges the rows of a file, each after those before it, and
//! what it promises holds for every history for which the register serves. `Register::check_row`
//! and `Register::apply_row` judge one row: a refusal has the least number that applies, and leaves
//! the register as it was. A late row (`is_in_time`) changes nothing in force (`registered_in`),
//! but the first row of a reference, late or not, fixes its seller and buyer. `Positions::replace`
//! moves the contract positions of a row's seller and buyer, and no others (`with_replaced`).
#![tactic(auto)]

mod file_rows;
mod hold;
mod judge;
mod last_asked;
mod positions;
mod register;
mod row_done;
mod timing;

pub use file_rows::FileRows;
pub use hh_names::{
    Account, Counterparties, Fault, FileName, PartyId, PeriodNumber, Reference, Refusal, UnitId,
};
pub use hh_rows::{
    ContractRow, FileBody, FileKind, PartyRegistration, Row, Settings, SettlementPeriod,
    UnitPeriod, UnitRegistration,
};
pub use positions::{Position, PositionKey, Positions};
pub use register::Register;
pub use row_done::RowDone;
pub use timing::Timing;
