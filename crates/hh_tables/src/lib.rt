//! Tables in memory: rows of columns under keys, in the order of the keys.
//!
//! A `TreeTable` and a `ListTable` are seen as the list of their rows, whose keys always rise.
//! `TreeTable::get`, `ListTable::get` and `ListTable::find` give what is under a key.
//! `TreeTable::put`, `ListTable::put_row` and `ListTable::with_rows` put rows in, each in the place
//! of the row with its key. If memory is refused, a table is as it was, and so are both tables of
//! `put_both`. `ListTable::of_rows` takes a list over exactly if its keys rise. What a call costs
//! is in no clause.
#![tactic(auto)]

mod list_table;
mod tree_table;

pub use list_table::ListTable;
pub use tree_table::{TreeTable, put_both};
