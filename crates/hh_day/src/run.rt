//! What is written for a new run.

ghost use Rattle.std.specs.Prelude.{◌≡◌, map, IfErr, IfOk, SomeIff};
ghost use Rattle.hh_num.specs.Quantities.{amounts_of_cash};
ghost use Rattle.hh_num.specs.Ranges.{IsBetween};
ghost use Rattle.hh_num.specs.Totals.{total};
ghost use Rattle.hh_runs.specs.Postings.{entry_of};
ghost use Rattle.hh_day.specs.NewRuns.{summary_of, IsWrittenFor};
ghost use Rattle.hh_day.specs.RunLimits.{FitsFields, FitsRun};

use crate::entries::{account_count, credit_entries, posting_entries, result_entries};
use crate::nets::nets_of;
use crate::settle::SettledPeriod;
use hh_calc::AccountRow;
use hh_names::PeriodNumber;
use hh_num::Pence;
use hh_runs::{Posting, RunKey, Summary, differences};
use hh_store::{RunChange, StoreFault};
use std::alloc::Global;

/// What is written for a run of a date with these settled Settlement Periods. `former` are the rows of the
/// run of the date before it. Written are its summary, the rows of its accounts, its credits, and its
/// postings, which are the differences between what accounts pay by the new rows and what they paid by the
/// old ones (profile).
///
/// # Errors
///
/// `Memory` if memory is refused. `Store` if a sum of the rows or a count is out of its range, which
/// doesn't happen for a run that the machine makes (`runs_fit`).
pub fn run_change(
    alloc: Global,
    run: RunKey,
    day: &[SettledPeriod],
    former: &[(PeriodNumber, AccountRow)],
) -> Result<RunChange, StoreFault>
    ensures written { IfOk result (IsWrittenFor run day.now former.now) }
    ensures memory_alone { FitsRun run day.now former.now
        → IfErr result (λ fault. fault ≡ StoreFault.Memory) }
{
    let results = result_entries(alloc, &run, day)?;
    let former_nets = nets_of(alloc, former)?;
    let new_nets = nets_of(alloc, &results)?;
    let postings = differences(alloc, &former_nets, &new_nets)?;
    let Some(summary) = summary_of(day, &postings) else {
        return Err(StoreFault::Store);
    };
    let credits = credit_entries(alloc, &run, day)?;
    let posted = posting_entries(alloc, &run, &postings)?;
    Ok(RunChange::new(run, summary, results, credits, posted))
}

/// The summary of a run, from its settled Settlement Periods and its postings. `None` exactly if a count or
/// the sum of the residuals is out of the range of its field.
fn summary_of(day: &[SettledPeriod], postings: &[Posting]) -> Option<Summary>
    ensures { let summary = summary_of day.now (map entry_of postings.now) in
        SomeIff result (FitsFields summary) summary }
{
    Some(Summary {
        periods: u8::try_from(day.len()).ok()?,
        accounts: u16::try_from(account_count(day)).ok()?,
        residual: residual_of(day)?,
        postings: u16::try_from(postings.len()).ok()?,
    })
}

/// The sum of the residuals of Settlement Periods. `None` exactly if it is out of the range of pence.
fn residual_of(day: &[SettledPeriod]) -> Option<Pence>
    ensures { let sum = total (λ q. q.1.residual) day.now in
        SomeIff result (IsBetween amounts_of_cash.least amounts_of_cash.most sum) sum }
{
    let mut sum = 0i128;
    for settled in day {
        sum += i128::from(settled.result().residual().units());
    }
    Pence::new(i64::try_from(sum).ok()?)
}
