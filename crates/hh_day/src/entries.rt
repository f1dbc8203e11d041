//! The entries of a run: its rows, credits and postings, each under its key.

ghost use Rattle.std.specs.Prelude.{◌≡◌, ◌++◌, map, IfOk, OnOk};
ghost use Rattle.hh_runs.specs.Postings.{entry_of};
ghost use Rattle.hh_states.specs.Content.{credit_entries, credit_key, posting_entries, result_entries, result_key};
ghost use Rattle.hh_day.specs.NewRuns.{account_count};
ghost use Rattle.hh_day.specs.steps.RunParts.{credit_count};

use crate::settle::SettledPeriod;
use hh_calc::{AccountRow, CreditRow};
use hh_num::{Pence, Ticks};
use hh_rows::SettlementPeriod;
use hh_runs::{Posting, RunKey};
use hh_states::{CreditKey, PostingKey, ResultKey};
use std::alloc::{AllocError, Global};

/// The rows of the accounts of a run under their keys, period by period.
pub(crate) fn result_entries(
    alloc: Global,
    run: &RunKey,
    day: &[SettledPeriod],
) -> Result<Vec<(ResultKey, AccountRow)>, AllocError>
    ensures { IfOk result (λ entries. entries.items ≡ result_entries run.now day.now) }
{
    let room = account_count(day).saturating_mul(day.len());
    let mut entries = Vec::with_capacity(alloc, room)?;
    for settled in day {
        let rows = settled.result().accounts();
        push_results(&mut entries, run, &settled.at(), rows)?;
    }
    Ok(entries)
}

/// How many accounts a run settles, counted in its first Settlement Period.
pub(crate) fn account_count(day: &[SettledPeriod]) -> usize
    ensures { result ≡ account_count day.now }
{
    match day.first() {
        Some(settled) => settled.result().accounts().len(),
        None => 0,
    }
}

/// Appends the rows of a Settlement Period of a run under their keys.
fn push_results(
    entries: &mut Vec<(ResultKey, AccountRow)>,
    run: &RunKey,
    at: &SettlementPeriod,
    rows: &[AccountRow],
) -> Result<(), AllocError>
    ensures { OnOk result (entries.new.items ≡ entries.old.items
        ++ map (λ r. (result_key run.now at.now r, r)) rows.now) }
{
    for row in rows {
        entries.push((key_of_row(run, at, row), *row))?;
    }
    Ok(())
}

/// The key of an account's row in a Settlement Period of a run.
fn key_of_row(run: &RunKey, at: &SettlementPeriod, row: &AccountRow) -> ResultKey
    ensures { result ≡ result_key run.now at.now row.now }
{
    ResultKey {
        run: *run,
        period: at.period,
        account: row.account,
    }
}

/// The credits of a run under their keys, period by period.
pub(crate) fn credit_entries(
    alloc: Global,
    run: &RunKey,
    day: &[SettledPeriod],
) -> Result<Vec<(CreditKey, Ticks)>, AllocError>
    ensures { IfOk result (λ entries. entries.items ≡ credit_entries run.now day.now) }
{
    let room = credit_count(day).saturating_mul(day.len());
    let mut entries = Vec::with_capacity(alloc, room)?;
    for settled in day {
        let credits = settled.result().credits();
        push_credits(&mut entries, run, &settled.at(), credits)?;
    }
    Ok(entries)
}

/// How many credits the first Settlement Period of a day has.
fn credit_count(day: &[SettledPeriod]) -> usize
    ensures { result ≡ credit_count day.now }
{
    match day.first() {
        Some(settled) => settled.result().credits().len(),
        None => 0,
    }
}

/// Appends the credits of a Settlement Period of a run under their keys.
fn push_credits(
    entries: &mut Vec<(CreditKey, Ticks)>,
    run: &RunKey,
    at: &SettlementPeriod,
    credits: &[CreditRow],
) -> Result<(), AllocError>
    ensures { OnOk result (entries.new.items ≡ entries.old.items
        ++ map (λ c. (credit_key run.now at.now c, c.credited)) credits.now) }
{
    for credit in credits {
        entries.push((key_of_credit(run, at, credit), credit.credited))?;
    }
    Ok(())
}

/// The key of a credit in a Settlement Period of a run.
fn key_of_credit(run: &RunKey, at: &SettlementPeriod, credit: &CreditRow) -> CreditKey
    ensures { result ≡ credit_key run.now at.now credit.now }
{
    CreditKey {
        run: *run,
        period: at.period,
        unit: credit.unit,
        account: credit.account,
    }
}

/// The postings of a run under their keys.
pub(crate) fn posting_entries(
    alloc: Global,
    run: &RunKey,
    postings: &[Posting],
) -> Result<Vec<(PostingKey, Pence)>, AllocError>
    ensures { IfOk result (λ entries.
        entries.items ≡ posting_entries run.now (map entry_of postings.now)) }
{
    let mut entries = Vec::with_capacity(alloc, postings.len())?;
    for posting in postings {
        entries.push((key_of_posting(run, posting), posting.pence))?;
    }
    Ok(entries)
}

/// The key of a posting of a run.
fn key_of_posting(run: &RunKey, posting: &Posting) -> PostingKey
    ensures { result ≡ record { run = run.now; account = posting.now.account } }
{
    PostingKey {
        run: *run,
        account: posting.account,
    }
}
