//! The differences between two runs of a date.

ghost use Rattle.std.specs.Prelude.{◌≡◌, ◌++◌, [], filter_map, map, IfOk, OnOk};
ghost use Rattle.hh_names.specs.Accounts.{account_cmp};
ghost use Rattle.hh_names.specs.Ranges.{IsBetween};
ghost use Rattle.hh_tables.specs.Tables.{put_all};
ghost use Rattle.hh_runs.specs.DayNets.{day_cash, day_net_of, differences, net_change, with_change};
ghost use Rattle.hh_runs.specs.Postings.{entry_of};
ghost use Rattle.hh_runs.specs.steps.Postings.{posting_for};

use crate::day_net::{DayNet, DayNetTable};
use crate::posting::Posting;
use hh_names::{Account, Pence};
use hh_tables::ListTable;
use std::alloc::{AllocError, Global};

/// The differences between the day nets of two runs of a date (profile). They are the accounts of either
/// run whose net differs, each with its new net less its old, in account order. An account that a run
/// doesn't have counts as 0 there. `Err` only if memory is refused.
#[tactic(auto, using(crate::proofs::ChangeLaws::changes_in_order, crate::proofs::ChangeLaws::postings_are))]
pub fn differences(
    alloc: Global,
    old: &DayNetTable,
    new: &DayNetTable,
) -> Result<Vec<Posting>, AllocError>
    ensures { IfOk result (λ postings.
        map entry_of postings.items ≡ differences old.now new.now) }
{
    let changes = changes_of(alloc, old, new)?;
    postings_of(alloc, changes.rows())
}

/// The postings of the changes that are not 0.
fn postings_of(alloc: Global, changes: &[(Account, Pence)]) -> Result<Vec<Posting>, AllocError>
    ensures { IfOk result (λ postings. postings.items ≡ filter_map posting_for changes.now) }
{
    changes
        .iter()
        .filter_map(|change| posting_of(*change))
        .collect(alloc)
}

/// The posting of a change, if it is not 0.
fn posting_of(change: (Account, Pence)) -> Option<Posting>
    ensures { result ≡ posting_for change }
{
    let (account, pence) = change;
    if pence.units() == 0 {
        None
    } else {
        Some(Posting { account, pence })
    }
}

/// The accounts of either run, each with its new net less its old, in account order.
fn changes_of(
    alloc: Global,
    old: &DayNetTable,
    new: &DayNetTable,
) -> Result<ListTable<Account, Pence>, AllocError>
    ensures { IfOk result (λ changes. changes ≡ put_all account_cmp
        (map (with_change old.now new.now) (new.now ++ old.now)) []) }
{
    ListTable::new(alloc).with_rows(alloc, all_changes(alloc, old, new)?)
}

/// The accounts of the new run, then those of the old, each with its new net less its old.
fn all_changes(
    alloc: Global,
    old: &DayNetTable,
    new: &DayNetTable,
) -> Result<Vec<(Account, Pence)>, AllocError>
    ensures { IfOk result (λ changes. changes.items
        ≡ map (with_change old.now new.now) (new.now ++ old.now)) }
{
    let count = new.len().saturating_add(old.len());
    let mut changes = Vec::with_capacity(alloc, count)?;
    push_changes(&mut changes, old, new, new.rows())?;
    push_changes(&mut changes, old, new, old.rows())?;
    Ok(changes)
}

/// Appends the accounts of some nets, each with its new net less its old.
fn push_changes(
    changes: &mut Vec<(Account, Pence)>,
    old: &DayNetTable,
    new: &DayNetTable,
    nets: &[(Account, DayNet)],
) -> Result<(), AllocError>
    ensures { OnOk result (changes.new.items
        ≡ changes.old.items ++ map (with_change old.now new.now) nets.now) }
{
    for net in nets {
        changes.push((net.0, change_of(old, new, &net.0)))?;
    }
    Ok(())
}

/// The new net of an account less its old one.
fn change_of(old: &DayNetTable, new: &DayNetTable, account: &Account) -> Pence
    ensures { result ≡ net_change old.now new.now account.now }
{
    Pence::of(net_in(new, account) - net_in(old, account))
}

/// The day net of an account among these, in pence, 0 if the account has none.
fn net_in(nets: &DayNetTable, account: &Account) -> i64
    ensures value { result ≡ day_net_of nets.now account.now }
    ensures range { IsBetween day_cash.least day_cash.most result }
{
    match nets.get(account) {
        Some(net) => net.units(),
        None => 0,
    }
}
