//! The life of an office's database file: commands one after the other.
//!
//! Each command opens the files that the one before has left, or those of a new office
//! (`make_office`), and closes them, is killed, or is cut off by a crash of the computer
//! (`run_once`, `run_all`). A command that was answered is counted once, and one that was given up
//! is counted or not (`AreCounted`). The two files are disks of the model `sqlite_disk`: that the
//! files at a path are such disks is assumed. A stop inside a call is such a disk too, which passes
//! a given number of calls on and refuses all later ones, and the clauses hold for each number. If
//! the answer is a `LifeStop`, nothing is said of the files. Only tests call these functions:
//! `settle` opens its files by `hh_kept_office`.
#![tactic(auto)]

mod answering;
mod ending;
mod life;
mod making;
mod opening;

pub use life::{Ending, FileCommand, LifeStop, run_all, run_once};
pub use making::make_office;
