//! A table in a database: what any of them is, and the calls that write, select, give and remove
//! its rows, under any schema.
//!
//! A table is a type that implements `OfficeTable`: it names the schema, the form of its rows and
//! the text that writes one. `Grouped`, `Listed`, `Found`, `Under` and `Removed` say its other
//! texts. Each call is proved once for all tables: one clause says what it leaves (`frame`), and
//! one more what it is for, as `puts`, `value` or `removes`. If a call that gives rows to a
//! `RowTaker` fails, as `give_all`, the taker was given a beginning of these rows (`GivesEach`).
//! `create_table` makes a table in a database that may have rows in other tables.
#![tactic(auto)]

mod creating;
mod giving;
mod many_keys;
mod one_table;
mod report_takers;
mod statement;
mod table_calls;
mod taker;

pub use creating::create_table;
pub use hh_keyed_rows::RowFault;
pub use many_keys::{select_each, select_under_each};
pub use one_table::{Found, Grouped, Listed, OfficeTable, Removed, Under};
pub use statement::GROUP;
pub use table_calls::{
    give_all, give_under, insert_all, insert_group, remove_under, replace, replace_all, select,
    select_all, select_under,
};
pub use taker::RowTaker;
