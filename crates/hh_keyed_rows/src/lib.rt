//! The rows of a database table as rows of an office's table: which columns represent a key and a
//! value, in which ranges, and which table the rows represent, in the order of their keys.
//!
//! What is written for a key or value (`Columned`) is read as the same one, nothing else is read as
//! it, and no two are written in the same way (`column_codecs`, `key_codecs`, `value_codecs`). A
//! row off its form or range is no row of an office's table: `read_entry` and `read_entries` answer
//! `Store`, and never skip it. Rows represent the same table in any order (`rows_in_any_order`),
//! and INSERT OR REPLACE puts the value under its key (`puts_replace`).
#![tactic(auto)]

mod accounts;
mod amounts;
mod columned;
mod columns;
mod entries;
mod fields;
mod keys;
mod laws;
mod no_columns;
mod one_row;
mod row_fault;
mod settings;
mod values;

pub use amounts::AccountAmounts;
pub use columned::Columned;
pub use columns::Columns;
pub use entries::{columns_of, read_entries, read_entry};
pub use hh_store::{
    CreditKey, FileKey, KeptFile, LoadChange, OutputFault, Position, PositionKey, PostingKey,
    ResultKey, RunChange,
};
pub use laws::{
    column_codecs, key_codecs, puts_replace, rows_in_any_order, rows_read_back, value_codecs,
};
pub use no_columns::NoColumns;
pub use one_row::OneRow;
pub use row_fault::RowFault;
pub use settings::NumberedSettings;
