//! The place of an account among the accounts of a period.

ghost use Rattle.std.specs.Prelude.{◌≡◌, ◌<◌, length, true, IfSome, IsNone};
ghost use Rattle.std.specs.List.{HoldsAt};
ghost use Rattle.hh_calc.specs.Ready.{AreAccountsInOrder, IsListed};

use crate::data::ContractPlaces;
use hh_names::Account;

/// The place of an account among these, if it is one of them. Looks at the place `near` first, which may
/// be any.
pub(crate) fn place_of(accounts: &[Account], account: &Account, near: usize) -> Option<usize>
    requires { AreAccountsInOrder accounts.now }
    ensures inside { IfSome result (λ place. place < length accounts.now) }
    ensures place { IfSome result (λ place. HoldsAt (λ a. a ≡ account.now) accounts.now place) }
    ensures none { IsNone result → IsListed accounts.now account.now → ⊥ }
{
    if is_at(accounts, account, near) {
        return Some(near);
    }
    match accounts.binary_search(account) {
        Ok(place) => Some(place),
        Err(_) => None,
    }
}

/// The places to look at first for the accounts of the contract row at a place, which may be any.
pub(crate) fn places_of_row(near: &[ContractPlaces], row: usize) -> ContractPlaces {
    match near.get(row) {
        Some(places) => *places,
        None => ContractPlaces::NOWHERE,
    }
}

/// Whether an account is at a place among these.
fn is_at(accounts: &[Account], account: &Account, place: usize) -> bool
    ensures inside { result ≡ true → place < length accounts.now }
    ensures place { result ≡ true → HoldsAt (λ a. a ≡ account.now) accounts.now place }
{
    if place >= accounts.len() {
        return false;
    }
    accounts[place] == *account
}
