//! Which Settlement Periods the rows of an accepted file touch.

ghost use Rattle.std.specs.Prelude.{◌≡◌, ◌++◌, IfOk, filter_map};
ghost use Rattle.std.specs.List.Sorted.{IsStrictlySortedBy};
ghost use Rattle.hh_rows.specs.Keys.{settlement_period_cmp};
ghost use Rattle.hh_beside.specs.DayLaws.{HaveTheSame};
ghost use Rattle.hh_beside.specs.Keeping.{touched_by};

use hh_rows::{Row, SettlementPeriod};
use std::alloc::{AllocError, Global};
use std::collections::BTreeSet;

/// These Settlement Periods, and those that rows touch by themselves, if the rows are in time. Each is
/// listed once, in order.
pub fn periods_touched_by(
    alloc: Global,
    more: &[SettlementPeriod],
    rows: &[Row],
) -> Result<Vec<SettlementPeriod>, AllocError>
    ensures same { IfOk result (λ found.
        HaveTheSame found.items (more.now ++ filter_map touched_by rows.now)) }
    ensures once { IfOk result (λ found. IsStrictlySortedBy settlement_period_cmp found.items) }
{
    let mut found = set_of(alloc, more)?;
    for row in rows {
        if let Some(at) = period_of(row) {
            found.insert(at)?;
        }
    }
    periods_of(alloc, found)
}

/// The set of these Settlement Periods.
fn set_of(
    alloc: Global,
    periods: &[SettlementPeriod],
) -> Result<BTreeSet<SettlementPeriod>, AllocError>
    ensures { IfOk result (λ set. HaveTheSame set.keys periods.now) }
{
    let mut set = BTreeSet::new(alloc);
    for at in periods {
        set.insert(*at)?;
    }
    Ok(set)
}

/// The Settlement Periods of a set.
fn periods_of(
    alloc: Global,
    periods: BTreeSet<SettlementPeriod>,
) -> Result<Vec<SettlementPeriod>, AllocError>
    ensures same { IfOk result (λ list. list.items ≡ periods.keys) }
    ensures once { IfOk result (λ list. IsStrictlySortedBy settlement_period_cmp list.items) }
{
    periods.into_iter().collect(alloc)
}

/// The Settlement Period that a row touches if it is in time, if it touches one.
fn period_of(row: &Row) -> Option<SettlementPeriod>
    ensures { result ≡ touched_by row.now }
{
    match row {
        Row::Party(_) | Row::Unit(_) => None,
        Row::Meter(row) => Some(row.key.at),
        Row::Price(row) => Some(row.at),
        Row::Contract(row) => Some(row.key.at),
        Row::Reallocation(row) => Some(row.key.unit_period.at),
    }
}
