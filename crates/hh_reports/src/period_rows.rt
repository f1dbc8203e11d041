//! The order of rows by their Settlement Periods.

ghost use Rattle.std.specs.Prelude.{IfOk, IsTrue};
ghost use Rattle.std.specs.List.Sorted.{IsNonDecreasingBy, IsPermutation, IsStableByKey};
ghost use Rattle.std.specs.Ordering.{nat_cmp};

use hh_calc::AccountRow;
use hh_names::PeriodNumber;
use std::alloc::{AllocError, Global};

/// Whether the Settlement Periods of rows never fall.
pub(crate) fn is_rising(rows: &[(PeriodNumber, AccountRow)]) -> bool
    ensures { IsTrue result → IsNonDecreasingBy (λ e. e.0) rows.now }
{
    let mut last = 0;
    for row in rows {
        let period = row.0.number();
        if period < last {
            return false;
        }
        last = period;
    }
    true
}

/// The rows in the order of their Settlement Periods. Rows of one period stay in the order in which they
/// came.
pub(crate) fn in_order_of_periods(
    alloc: Global,
    rows: &[(PeriodNumber, AccountRow)],
) -> Result<Vec<(PeriodNumber, AccountRow)>, AllocError>
    ensures rising { IfOk result (λ sorted. IsNonDecreasingBy (λ e. e.0) sorted.items) }
    ensures same { IfOk result (λ sorted. IsPermutation rows.now sorted.items) }
    ensures stable { IfOk result (λ sorted.
        IsStableByKey (λ e. e.0) nat_cmp rows.now sorted.items) }
{
    let mut sorted = Vec::from_slice(alloc, rows)?;
    sorted.sort_by_key(|row| row.0.number())?;
    Ok(sorted)
}
