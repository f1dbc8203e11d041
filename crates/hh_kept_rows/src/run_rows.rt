//! What is read of runs, out of rows in the order of their keys.

ghost use Rattle.std.specs.Prelude.{◌≡◌, filter_map, IfOk};
ghost use Rattle.hh_states.specs.Reads.{posting_to, result_in, summary_on};

use hh_calc::AccountRow;
use hh_names::{Account, PeriodNumber};
use hh_num::Pence;
use hh_runs::{RunKey, RunKind, Summary};
use hh_states::{PostingKey, ResultKey};
use hh_time::SettlementDate;
use std::alloc::{AllocError, Global};

/// The runs of a date with their summaries, in the order of the rows. `Err` only if memory is refused.
pub fn runs_on(
    alloc: Global,
    date: SettlementDate,
    rows: &[(RunKey, Summary)],
) -> Result<Vec<(RunKind, Summary)>, AllocError>
    ensures { IfOk result (λ runs. runs.items ≡ filter_map (summary_on date) rows.now) }
{
    let mut found = Vec::new(alloc);
    for (key, summary) in rows {
        if let Some(run) = summary_on(date, *key, *summary) {
            found.push(run)?;
        }
    }
    Ok(found)
}

/// The rows of a run's accounts with their Settlement Periods, in the order of the rows. `Err` only if
/// memory is refused.
pub fn results_of(
    alloc: Global,
    run: &RunKey,
    rows: &[(ResultKey, AccountRow)],
) -> Result<Vec<(PeriodNumber, AccountRow)>, AllocError>
    ensures { IfOk result (λ found. found.items ≡ filter_map (result_in run.now) rows.now) }
{
    let mut found = Vec::with_capacity(alloc, likely_count(run, rows))?;
    for (key, row) in rows {
        if let Some(row) = result_in(run, *key, *row) {
            found.push(row)?;
        }
    }
    Ok(found)
}

/// How many of these rows are of a run, if they are in the order of their keys. Room is made by this. In
/// any other order it is wrong, which only costs time or memory.
fn likely_count(run: &RunKey, rows: &[(ResultKey, AccountRow)]) -> usize {
    let before = rows.partition_point(|row| row.0.run.cmp(run).is_lt());
    let up_to = rows.partition_point(|row| row.0.run.cmp(run).is_le());
    up_to.saturating_sub(before)
}

/// What the runs posted to an account, in the order of the rows. `Err` only if memory is refused.
pub fn postings_to(
    alloc: Global,
    account: &Account,
    rows: &[(PostingKey, Pence)],
) -> Result<Vec<(RunKey, Pence)>, AllocError>
    ensures { IfOk result (λ found. found.items ≡ filter_map (posting_to account.now) rows.now) }
{
    let mut found = Vec::new(alloc);
    for (key, pence) in rows {
        if let Some(posting) = posting_to(account, *key, *pence) {
            found.push(posting)?;
        }
    }
    Ok(found)
}

/// A run's kind and summary, if it is of this date.
fn summary_on(date: SettlementDate, run: RunKey, summary: Summary) -> Option<(RunKind, Summary)>
    ensures { result ≡ summary_on date (run, summary) }
{
    if run.date == date {
        Some((run.kind, summary))
    } else {
        None
    }
}

/// A row with its period, if it is of this run.
fn result_in(run: &RunKey, key: ResultKey, row: AccountRow) -> Option<(PeriodNumber, AccountRow)>
    ensures { result ≡ result_in run.now (key, row) }
{
    if key.run.cmp(run).is_eq() {
        Some((key.period, row))
    } else {
        None
    }
}

/// A posting with its run, if it is to this account.
fn posting_to(account: &Account, key: PostingKey, pence: Pence) -> Option<(RunKey, Pence)>
    ensures { result ≡ posting_to account.now (key, pence) }
{
    if key.account == *account {
        Some((key.run, pence))
    } else {
        None
    }
}
