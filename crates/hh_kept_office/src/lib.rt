//! Commands and scripts on an office whose tables are kept in a database, and on one at a path.
//!
//! After a command (`make_office_in_database`, `run_errand_in_database`) or the lines of a script
//! (`run_in_new_database`, `run_in_database`, `run_over_database`) the database holds the state
//! after them, committed, or what it had; after `migrate_in_database` it holds the same content in
//! the present version. The connection has to be open in the end: it is shut only if a disk failed,
//! and then only `well`, `untouched` and what was found at the path are promised. A crash leaves
//! the tables of the state after a command that was answered, even if its output failed, and those
//! of the state before or after one that was given up. If the file of a load can't be read, or the
//! tables were not taken over, it leaves those of the state before (`KeptLeaves`, `CountsAs`), and
//! during a migration the office of either version (`MayMigrate`). A path is looked at before it is
//! opened (`make_office_at`, `migrate_at`, `run_errand_at`, `run_script_at`), and a `DatabaseHost`
//! says what a look may find there and which connections an opening may give. Nothing is known of
//! the system's databases (`any_places`): that a command finds what the last one left is only
//! tested.
#![tactic(auto)]

mod errands;
mod facts;
mod files;
mod lines;
mod making;
mod migrating;
mod over;
mod path;
mod place;
mod running;
mod scripts;
mod stop;
mod system;

pub use errands::run_errand_in_database;
pub use facts::{Lateness, lateness_at, missing_readings_at};
pub use hh_session::{
    Came, Errand, ErrandStop, LinesStop, NoNotes, Notes, Office, ScriptStop, Serving, run_script,
};
pub use hh_sqlstore::Rising;
pub use making::make_office_in_database;
pub use migrating::{migrate_at, migrate_in_database};
pub use path::{PathStop, make_office_at, run_errand_at};
pub use place::DatabaseHost;
pub use running::{run_in_database, run_in_new_database, run_over_database};
pub use scripts::{ScriptPathStop, run_script_at};
pub use stop::{AfterUse, DatabaseStop};
pub use system::Machine;
