//! One Settlement Period from the bytes of its inputs to the bytes of its text.
//!
//! `period` settles one period from two files and a price, and writes the text that the definitions
//! make of their bytes (`written`). Or it is refused for the first reason in the stated order, and
//! writes nothing (`refused`, `untouched`). If the output fails, a beginning of the text was
//! written (`cut`).
#![tactic(auto)]

mod gather;
mod inputs;
mod period_text;
mod rejection;
mod rejection_text;

pub use inputs::{PeriodFault, period};
pub use rejection::{Input, Rejection};
