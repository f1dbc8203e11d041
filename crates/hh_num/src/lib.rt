//! Scaled whole numbers, their texts, and rounding.
//!
//! `read_fixed` and `read_natural` read exactly the texts of their grammars whose numbers fit.
//! `write_fixed` appends the one spelling of a number, which is read back as the same number
//! (`reads_back`). A `Scaled` number is one of a `Quantity`, as `Kwh` or `Pence`, and is never
//! outside its range. `round_div` gives the whole number nearest to a quotient, and of two the one
//! farther from zero (`nearest_is_one`).
#![tactic(auto)]

mod fixed;
mod natural;
mod quantity;
mod rounding;

pub use fixed::{read_fixed, reads_back, write_fixed};
pub use natural::read_natural;
pub use quantity::{
    Cash, Energy, EnergyPrice, Kwh, LossMultiplier, NetKwh, NetVolume, Pence, Percent, Percentage,
    Price, Quantity, Scaled, Ticks, Tlm, Volume,
};
pub use rounding::{nearest_is_one, round_div};
