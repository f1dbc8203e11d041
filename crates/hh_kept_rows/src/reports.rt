//! The reports, written from rows in the order of their keys.

ghost use Rattle.std.specs.Prelude.{◌≡◌, ◌≢◌, map, IfErr, IfOk};
ghost use Rattle.hh_devices.specs.DeviceChanges.{change};
ghost use Rattle.hh_store.specs.DayReport.{day_report_text};
ghost use Rattle.hh_store.specs.Exports.{results_text};
ghost use Rattle.hh_store.specs.Outputs.{Outputs, reported_as};
ghost use Rattle.hh_kept_rows.specs.Reports.{balances_by};

use hh_calc::AccountRow;
use hh_devices::Sink;
use hh_names::{Account, PartyId, PeriodNumber};
use hh_num::Pence;
use hh_rows::PartyRegistration;
use hh_runs::{RunKey, Summary};
use hh_states::PostingKey;
use hh_store::{OutputFault, reported_as, write_balances, write_day_report, write_results};
use std::alloc::{AllocError, Global};

/// Writes the results of a run with this summary and these rows.
///
/// # Errors
///
/// `Memory` if memory is refused. `Write` if the output failed or took nothing in this call. A
/// beginning of the text may have gone out.
pub fn write_results_of<S: Sink>(
    alloc: Global,
    run: &RunKey,
    summary: &Summary,
    rows: &[(PeriodNumber, AccountRow)],
    out: &mut S,
) -> Result<(), OutputFault>
    ensures writes { Outputs (change S.taken S.failures out.old out.new)
        (results_text (reported_as run.now summary.now) rows.now) result }
    ensures never_store { IfErr result (λ fault. fault ≢ OutputFault.Store) }
{
    Ok(write_results(alloc, &reported_as(run, summary), rows, out)?)
}

/// Writes the day report of a run with this summary and these rows.
///
/// # Errors
///
/// `Memory` if memory is refused. `Write` if the output failed or took nothing in this call. A
/// beginning of the text may have gone out.
pub fn write_day_report_of<S: Sink>(
    alloc: Global,
    run: &RunKey,
    summary: &Summary,
    rows: &[(PeriodNumber, AccountRow)],
    out: &mut S,
) -> Result<(), OutputFault>
    ensures writes { Outputs (change S.taken S.failures out.old out.new)
        (day_report_text (reported_as run.now summary.now) rows.now) result }
    ensures never_store { IfErr result (λ fault. fault ≢ OutputFault.Store) }
{
    Ok(write_day_report(alloc, &reported_as(run, summary), rows, out)?)
}

/// Writes the balances of both accounts of each of these parties, by these postings.
///
/// # Errors
///
/// `Memory` if memory is refused. `Write` if the output failed or took nothing in this call. A
/// beginning of the text may have gone out.
pub fn write_balances_of<S: Sink>(
    alloc: Global,
    parties: &[(PartyId, PartyRegistration)],
    postings: &[(PostingKey, Pence)],
    out: &mut S,
) -> Result<(), OutputFault>
    ensures writes { Outputs (change S.taken S.failures out.old out.new)
        (balances_by parties.now postings.now) result }
    ensures never_store { IfErr result (λ fault. fault ≢ OutputFault.Store) }
{
    let ids = party_ids(alloc, parties)?;
    let amounts = amounts_posted(alloc, postings)?;
    Ok(write_balances(alloc, &ids, &amounts, out)?)
}

/// The ids of parties. `Err` only if memory is refused.
fn party_ids(
    alloc: Global,
    parties: &[(PartyId, PartyRegistration)],
) -> Result<Vec<PartyId>, AllocError>
    ensures { IfOk result (λ ids. ids.items ≡ map (λ e. e.0) parties.now) }
{
    parties.iter().map(|party| party.0).collect(alloc)
}

/// The amounts of postings, each with its account. `Err` only if memory is refused.
fn amounts_posted(
    alloc: Global,
    postings: &[(PostingKey, Pence)],
) -> Result<Vec<(Account, Pence)>, AllocError>
    ensures { IfOk result (λ amounts. amounts.items ≡ map (λ e. (e.0.account, e.1)) postings.now) }
{
    postings
        .iter()
        .map(|row| (row.0.account, row.1))
        .collect(alloc)
}
