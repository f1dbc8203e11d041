//! Settlement Days: their dates, periods and deadlines.
//!
//! `SettlementDate::read` and `read_date` read exactly the accepted dates, and what is written of a
//! date is read back (`dates_read_back`). `Day::of` gives the Settlement Day of a date in any zone,
//! or none if it doesn't have 46, 48 or 50 half hours. `period_start` and `deadline` give the
//! instants at which a period begins, and before which its notifications have to come. Like
//! `Day::has_period` and `Day::is_over`, they speak of the day that they are given. Dates and local
//! midnights are those of the toolchain's crate `jiff`, by what it states of its calendar and its
//! zones, so no promise depends on a condition on the zone (`midnight`). Only a test shows that the
//! market's zone (`london`) gives each accepted date the right number of periods.
#![tactic(auto)]

mod date;
mod day;
mod fault;
mod text;
mod zone;

pub use date::{SettlementDate, date_at, day_number};
pub use day::{Day, day_of, deadline, period_start};
pub use fault::TimeFault;
pub use text::{dates_read_back, read_date};
pub use zone::{london, midnight};
