//! What is kept of a date beside its rows.

use hh_calc::AccountRow;
use hh_num::Ticks;
use hh_rows::SettlementPeriod;
use hh_rules::{Position, PositionKey};
use hh_runs::{RunKey, Summary};
use hh_states::{CreditKey, ResultKey};
use hh_tables::ListTable;

/// What a store keeps beside the rows of a date, so that a run settles again only what has changed.
#[derive(Drop)]
pub struct DayBeside {
    /// The latest run of the date, with its summary, if there is one.
    pub latest: Option<(RunKey, Summary)>,
    /// The rows of the accounts in that run.
    pub results: ListTable<ResultKey, AccountRow>,
    /// The credits of that run.
    pub credits: ListTable<CreditKey, Ticks>,
    /// The Settlement Periods of the date that were touched since.
    pub touched: Vec<SettlementPeriod>,
    /// The contract positions of the date.
    pub positions: ListTable<PositionKey, Position>,
}
