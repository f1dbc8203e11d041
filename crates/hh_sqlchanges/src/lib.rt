//! What a load and a run write into the tables of an office's database.
//!
//! `write_load` and `write_run` write what an accepted file or a new run changes, with the
//! positions and the touched Settlement Periods that are kept beside (`writes`).
//! `write_beside_anew` writes these where none were kept. They work in a transaction and don't
//! commit it (`survives`). After a fault it must be undone. The account of a run's row isn't stored
//! twice, because each row is for the account that its key names (`rows_of_their_accounts`).
#![tactic(auto)]

mod beside_writing;
mod file_rows;
mod load_writing;
mod own_accounts;
mod run_writing;
mod touching;
mod unit_writing;

pub use beside_writing::write_beside_anew;
pub use hh_beside::{load_effect, run_effect};
pub use load_writing::write_load;
pub use own_accounts::rows_of_their_accounts;
pub use run_writing::write_run;
pub use touching::periods_touched_by;
