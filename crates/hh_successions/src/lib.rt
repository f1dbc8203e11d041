//! Which account leads a unit on a date, by looking back over all accepted rows.
//!
//! The account that leads a unit on a date is that of the last row of the unit whose range holds
//! the date, and none leads it if no row does (`leads_look_back`, `units_look_back`). One more
//! row changes who leads a unit on none but the row's own dates (`leads_stay`), and where the unit
//! was led only if it is a succession (`successions_alone_move_leads`). All rows of a unit have the
//! same mark (`marks_alike`), which no row changes (`marks_stay`). A reallocation in force is never
//! to the account that leads its unit on its date (`led_by_another`). What is registered follows
//! the rows one by one (`registers_row_by_row`).
#![tactic(auto)]

mod histories;

pub use histories::{
    leads_look_back, leads_stay, led_by_another, marks_alike, marks_stay, registers_row_by_row,
    successions_alone_move_leads, units_look_back,
};
