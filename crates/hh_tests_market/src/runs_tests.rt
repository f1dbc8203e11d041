//! What no clause says and no program shows: what a run posts to accounts that it does not have.

use hh_names::Account;
use hh_runs::*;
use std::alloc::Global;

/// The day net of an account, in pence. `None` if the text names no account, or the net is too large.
fn net_of(account: &str, pence: i64) -> Option<(Account, DayNet)> {
    Some((Account::read(account.as_bytes())?, DayNet::new(pence)?))
}

/// Day nets of these accounts. `None` also if memory is refused.
fn nets(alloc: Global, pence: &[(&str, i64)]) -> Option<DayNetTable> {
    let mut nets = DayNetTable::new(alloc);
    for net in pence {
        let (account, net) = net_of(net.0, net.1)?;
        nets.put_row(account, net).ok()?;
    }
    Some(nets)
}

/// Whether a run with the new nets, after one with the old ones, posts these pence to these accounts.
fn posts(alloc: Global, old: &[(&str, i64)], new: &[(&str, i64)], wanted: &[(&str, i64)]) -> bool {
    let (Some(old), Some(new)) = (nets(alloc, old), nets(alloc, new)) else {
        return false;
    };
    differences(alloc, &old, &new).is_ok_and(|postings| are_postings(&postings, wanted))
}

/// Whether these are the postings of the wanted pence to the wanted accounts.
fn are_postings(postings: &[Posting], wanted: &[(&str, i64)]) -> bool {
    postings.len() == wanted.len()
        && postings.iter().zip(wanted).all(|pair| {
            Account::read(pair.1.0.as_bytes()) == Some(pair.0.account)
                && pair.0.pence.units() == pair.1.1
        })
}

/// What four accounts paid by a run.
const FORMER: [(&str, i64); 4] = [
    ("GENCO-P", 38),
    ("GENCO-C", 0),
    ("SUPCO-P", 0),
    ("SUPCO-C", -38),
];

#[test]
fn accounts_that_are_gone_are_posted_back(rt: HostRuntime) {
    let back = [("GENCO-P", -38), ("SUPCO-C", 38)];
    assert!(rt; posts(rt.alloc(), &FORMER, &[], &back));
}
