//! A Settlement Period as the latest run of its date settled it.

ghost use Rattle.std.specs.Prelude.{◌≡◌, ◌≤◌, filter, map, true, false, IfOk, IfSome};
ghost use Rattle.std.specs.Ordering.{nat_cmp, ordering_then};
ghost use Rattle.hh_rules.specs.History.{Registered};
ghost use Rattle.hh_states.specs.PeriodSettlement.{accounts_on};
ghost use Rattle.hh_states.specs.Runs.{run_key_cmp};
ghost use Rattle.hh_states.specs.Beside.{credit_row, is_among, is_credit_of, is_result_of};
ghost use Rattle.hh_settled_periods.specs.SettledPeriods.{IsSameAs};

use crate::day_beside::DayBeside;
use hh_calc::{AccountRow, CreditRow, PeriodResult};
use hh_names::{Account, PeriodNumber};
use hh_num::Ticks;
use hh_rows::SettlementPeriod;
use hh_runs::RunKey;
use hh_states::{CreditKey, ResultKey};
use hh_tables::ListTable;
use std::alloc::{AllocError, Global};
use std::cmp::Ordering;

impl DayBeside {
    /// A Settlement Period as the latest run of its date settled it, if that run had the period and settled
    /// it for these accounts, and the period was not touched since. `Err` only if memory is refused.
    pub fn same_since(
        &self,
        alloc: Global,
        accounts: &[Account],
        at: &SettlementPeriod,
    ) -> Result<Option<PeriodResult>, AllocError>
        ensures { (tables : Registered) → accounts.now ≡ accounts_on tables at.now.date
            → IfOk result (λ o. IfSome o (IsSameAs tables self.now at.now self.now.latest)) }
    {
        let Some((run, summary)) = self.latest else {
            return Ok(None);
        };
        if !self.is_untouched(summary.periods, at) {
            return Ok(None);
        }
        let rows = results_at(&self.results, &run, at.period);
        if !are_accounts_of(rows, accounts) {
            return Ok(None);
        }
        let credits = credits_at(&self.credits, &run, at.period);
        let result = PeriodResult::of_rows(
            account_rows(alloc, rows)?,
            credit_rows(alloc, credits)?,
        );
        Ok(result)
    }

    /// Whether a Settlement Period is one of the `periods` of its date, and was not touched since the
    /// date's latest run.
    fn is_untouched(&self, periods: u8, at: &SettlementPeriod) -> bool
        ensures within { result ≡ true → (1 ≤ at.now.period) × (at.now.period ≤ periods) }
        ensures untouched { result ≡ true → is_among self.now.touched.items at.now ≡ false }
    {
        at.period.number() <= periods && !is_among(&self.touched, at)
    }
}

/// Whether a Settlement Period is among these.
fn is_among(periods: &[SettlementPeriod], at: &SettlementPeriod) -> bool
    ensures { result ≡ is_among periods.now at.now }
{
    for period in periods {
        if period.cmp(at).is_eq() {
            return true;
        }
    }
    false
}

/// The order of a run and period against another run and period.
fn order(run: &RunKey, period: PeriodNumber, others: &RunKey, other: PeriodNumber) -> Ordering
    ensures { result ≡ ordering_then (run_key_cmp run.now others.now) (nat_cmp period other) }
{
    run.cmp(others).then(period.cmp(&other))
}

/// The rows of accounts of a Settlement Period of a run, in account order.
fn results_at<'a>(
    results: &'a ListTable<ResultKey, AccountRow>,
    run: &RunKey,
    period: PeriodNumber,
) -> &'a [(ResultKey, AccountRow)]
    ensures { result.now ≡ filter (is_result_of run.now period) results.now }
{
    let rows = results.rows();
    let first = rows.partition_point(|row| order(&row.0.run, row.0.period, run, period).is_lt());
    let (_, rest) = rows.split_at(first);
    let count = rest.partition_point(|row| order(&row.0.run, row.0.period, run, period).is_le());
    let (found, _) = rest.split_at(count);
    found
}

/// The credits of a Settlement Period of a run, by the bytes of the units' ids, then by account.
fn credits_at<'a>(
    credits: &'a ListTable<CreditKey, Ticks>,
    run: &RunKey,
    period: PeriodNumber,
) -> &'a [(CreditKey, Ticks)]
    ensures { result.now ≡ filter (is_credit_of run.now period) credits.now }
{
    let rows = credits.rows();
    let first = rows.partition_point(|row| order(&row.0.run, row.0.period, run, period).is_lt());
    let (_, rest) = rows.split_at(first);
    let count = rest.partition_point(|row| order(&row.0.run, row.0.period, run, period).is_le());
    let (found, _) = rest.split_at(count);
    found
}

/// Whether these rows are of these accounts, one of each in order.
fn are_accounts_of(rows: &[(ResultKey, AccountRow)], accounts: &[Account]) -> bool
    ensures { result ≡ true → map (λ e. e.1.account) rows.now ≡ accounts.now }
{
    if rows.len() != accounts.len() {
        return false;
    }
    for (place, row) in rows.iter().enumerate() {
        if row.1.account != accounts[place] {
            return false;
        }
    }
    true
}

/// The rows without their keys.
fn account_rows(
    alloc: Global,
    entries: &[(ResultKey, AccountRow)],
) -> Result<Vec<AccountRow>, AllocError>
    ensures { IfOk result (λ rows. rows.items ≡ map (λ e. e.1) entries.now) }
{
    let mut rows = Vec::with_capacity(alloc, entries.len())?;
    for entry in entries {
        rows.push(entry.1)?;
    }
    Ok(rows)
}

/// The credits as rows.
fn credit_rows(alloc: Global, entries: &[(CreditKey, Ticks)]) -> Result<Vec<CreditRow>, AllocError>
    ensures { IfOk result (λ rows. rows.items ≡ map credit_row entries.now) }
{
    let mut rows = Vec::with_capacity(alloc, entries.len())?;
    for entry in entries {
        rows.push(CreditRow {
            unit: entry.0.unit,
            account: entry.0.account,
            credited: entry.1,
        })?;
    }
    Ok(rows)
}
