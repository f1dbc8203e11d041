//! The files that a command reads, by their paths.
//!
//! `Inputs::read` gives the bytes of the file at a path, up to a given number of them, or answers
//! that the file can't be read or that memory was refused. `read_front` does the same with a
//! source. `FileInputs` reads what an `Opener` opens. No contract ties a path to what the system
//! opens (`RuntimeFiles`): that the file of the path is read is only tested.
#![tactic(auto)]

mod file_inputs;
mod inputs;

pub use file_inputs::{FileInputs, Opener, RuntimeFiles, read_front};
pub use inputs::{InputFault, Inputs};
