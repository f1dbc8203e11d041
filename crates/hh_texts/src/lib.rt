//! The files of the market as rows: CSV with a header, and rows of one form.
//!
//! `read_file` gives the rows of a file of a kind, or its first fault, 10 to 14.
//! `read_period_meters` and `read_period_contracts` do so with the two files of a period alone, all
//! by `read_rows` over a `Form`. Each field of a row that is read is in its grammar and range. What
//! is registered and in force is not asked. What a record and a field are is stated by the
//! toolchain's crate `csv` about itself.
#![tactic(auto)]

mod fields;
mod files;
mod form;
mod last_date;
mod period_contracts;
mod period_meters;
mod records;

pub use files::{KindForm, forms_of, read_file};
pub use form::{Form, MOST_BYTES, MOST_ROWS, read_rows};
pub use last_date::LastDate;
pub use period_contracts::{PeriodContractRow, PeriodContracts, read_period_contracts};
pub use period_meters::{PeriodMeterRow, PeriodMeters, read_period_meters};
