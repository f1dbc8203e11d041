//! Reading parties, runs and the rows of runs.

ghost use Rattle.std.specs.Prelude.{◌≡◌, bytes_eq, filter_map, map, IfOk};
ghost use Rattle.std.specs.List.{list_any};
ghost use Rattle.sqlite.specs.Held.{state};
ghost use Rattle.hh_states.specs.Reads.{is_key_known_in, posting_to, result_in, summary_on};
ghost use Rattle.hh_sqlrows.specs.Contents.{period_row, registered_of, result_of};
ghost use Rattle.hh_sqlrows.specs.Forms.{rows_under_keys};
ghost use Rattle.hh_sqlrows.specs.OfficeTables.{postings, results, runs};
ghost use Rattle.hh_sqlrows.specs.Reads.{OfSettled, ReadsSettled};
ghost use Rattle.hh_sqlstore.specs.Stores.{ArePosted};

use hh_calc::AccountRow;
use hh_keyed_rows::{AccountAmounts, RowFault};
use hh_names::{Account, PartyId, PeriodNumber};
use hh_num::Pence;
use hh_rows::PartyRegistration;
use hh_runs::{RunKey, RunKind, Summary};
use hh_sqlparts::{postings_to, runs_on};
use hh_sqlrows::tables::{Parties, Postings, Results, Runs};
use hh_sqlrows::{select_all, select_under};
use hh_states::{PostingKey, ResultKey};
use hh_time::SettlementDate;
use sqlite::{Alter, Connection};
use std::alloc::{AllocError, Global};

/// Whether a registered party has the key.
pub(crate) fn is_key_known<S: Alter>(
    conn: &mut Connection<S>,
    alloc: Global,
    key: &[u8],
) -> Result<bool, RowFault>
    ensures frame { ReadsSettled (state S.Store conn.old) (state S.Store conn.new) result }
    ensures value { let old = state S.Store conn.old in
        let new = state S.Store conn.new in
        OfSettled old new (IfOk result (λ known.
        known ≡ is_key_known_in (registered_of old.now.trees) key.now)) }
{
    let parties = select_all::<Parties, S>(conn, alloc)?;
    Ok(has_key(&parties, key))
}

/// Whether one of these parties has the key.
fn has_key(parties: &[(PartyId, PartyRegistration)], key: &[u8]) -> bool
    ensures { result ≡ list_any (λ e. bytes_eq e.1.key key.now) parties.now }
{
    parties.iter().any(|party| party.1.key.as_bytes() == key)
}

/// The runs of a date with their summaries, in the order of their kinds.
pub(crate) fn runs_of_date<S: Alter>(
    conn: &mut Connection<S>,
    alloc: Global,
    date: SettlementDate,
) -> Result<Vec<(RunKind, Summary)>, RowFault>
    ensures frame { ReadsSettled (state S.Store conn.old) (state S.Store conn.new) result }
    ensures value { let old = state S.Store conn.old in
        let new = state S.Store conn.new in
        OfSettled old new (IfOk result (λ found.
        found.items ≡ filter_map (summary_on date) (rows_under_keys runs old.now.trees))) }
{
    let rows = select_under::<Runs, SettlementDate, S>(conn, alloc, &date)?;
    Ok(runs_on(alloc, date, &rows)?)
}

/// The rows of a run's accounts, by Settlement Period, then by account.
pub(crate) fn results_of_run<S: Alter>(
    conn: &mut Connection<S>,
    alloc: Global,
    run: &RunKey,
) -> Result<Vec<(PeriodNumber, AccountRow)>, RowFault>
    ensures frame { ReadsSettled (state S.Store conn.old) (state S.Store conn.new) result }
    ensures value { let old = state S.Store conn.old in
        let new = state S.Store conn.new in
        OfSettled old new (IfOk result (λ found. found.items
        ≡ filter_map (result_in run.now) (map result_of (rows_under_keys results old.now.trees)))) }
{
    let rows = select_under::<Results, RunKey, S>(conn, alloc, run)?;
    Ok(rows_by_period(alloc, &rows)?)
}

/// Rows of accounts with their periods. `Err` only if memory is refused.
fn rows_by_period(
    alloc: Global,
    rows: &[(ResultKey, AccountAmounts)],
) -> Result<Vec<(PeriodNumber, AccountRow)>, AllocError>
    ensures { IfOk result (λ found.
        found.items ≡ map period_row rows.now) }
{
    rows.iter()
        .map(|row| (row.0.period, row.1.with(row.0.account)))
        .collect(alloc)
}

/// What the runs have posted to an account, by the dates of the runs, then by their kinds. All postings are
/// read if they aren't in memory yet, and then kept in memory.
pub(crate) fn postings_to_account<S: Alter>(
    conn: &mut Connection<S>,
    alloc: Global,
    posted: &mut Option<Vec<(PostingKey, Pence)>>,
    account: &Account,
) -> Result<Vec<(RunKey, Pence)>, RowFault>
    ensures frame { ReadsSettled (state S.Store conn.old) (state S.Store conn.new) result }
    ensures value { let old = state S.Store conn.old in
        let new = state S.Store conn.new in
        ArePosted old posted.old → OfSettled old new (IfOk result (λ found. found.items
        ≡ filter_map (posting_to account.now) (rows_under_keys postings old.now.trees))) }
    ensures posted { let old = state S.Store conn.old in
        let new = state S.Store conn.new in
        ArePosted old posted.old → OfSettled old new (ArePosted old posted.new) }
{
    let rows = all_postings(conn, alloc, posted.take())?;
    let found = postings_to(alloc, account, &rows)?;
    *posted = Some(rows);
    Ok(found)
}

/// All postings: those in memory, or otherwise those that are read now.
fn all_postings<S: Alter>(
    conn: &mut Connection<S>,
    alloc: Global,
    posted: Option<Vec<(PostingKey, Pence)>>,
) -> Result<Vec<(PostingKey, Pence)>, RowFault>
    ensures frame { ReadsSettled (state S.Store conn.old) (state S.Store conn.new) result }
    ensures value { let old = state S.Store conn.old in
        let new = state S.Store conn.new in
        ArePosted old posted → OfSettled old new (IfOk result (λ rows.
        rows.items ≡ rows_under_keys postings old.now.trees)) }
{
    match posted {
        Some(rows) => Ok(rows),
        None => select_all::<Postings, S>(conn, alloc),
    }
}
