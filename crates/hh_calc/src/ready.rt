//! Whether a period may be settled.

ghost use Rattle.std.specs.Prelude.{◌≡◌, ◌↔◌, All, IsTrue};
ghost use Rattle.hh_share.specs.Totals.{total};
ghost use Rattle.std.specs.declared.cmp.Ordering.TheVariants.{Less};
ghost use Rattle.hh_names.specs.Accounts.{account_cmp};
ghost use Rattle.hh_calc.specs.Ready.{AreAccountsInOrder, AreContractsReady, AreNetsReady, AreSubsidiariesListed, HasFewSubsidiaries, IsContractListed, IsListed, IsNetVolume, IsReady, IsUnitListed};
ghost use Rattle.hh_calc.specs.Terms.{contracts_given};

use crate::data::{ContractPlaces, Contracts, NOWHERE, PeriodData, Subsidiary, UnitData};
use crate::places::{place_of, places_of_row};
use hh_names::{Account, Contract};
use hh_share::NetKwh;
use std::cmp::Ordering;

/// The most subsidiaries that a unit may have.
const MOST_SUBSIDIARIES: usize = 799;

/// Whether an account comes before another.
fn is_before(account: &Account, other: &Account) -> bool
    ensures { IsTrue result ↔ (account_cmp account.now other.now ≡ Less) }
{
    matches!(account.cmp(other), Ordering::Less)
}

/// Whether the accounts rise in account order.
fn are_in_order(accounts: &[Account]) -> bool
    ensures { IsTrue result ↔ AreAccountsInOrder accounts.now }
{
    for place in 1..accounts.len() {
        if !is_before(&accounts[place - 1], &accounts[place]) {
            return false;
        }
    }
    true
}

/// Whether an account is one of these. Looks at the place `near` first, which may be any.
fn is_listed(accounts: &[Account], account: &Account, near: usize) -> bool
    requires { AreAccountsInOrder accounts.now }
    ensures { IsTrue result ↔ IsListed accounts.now account.now }
{
    match place_of(accounts, account, near) {
        Some(_) => true,
        None => false,
    }
}

/// Whether each subsidiary's account is one of these.
fn are_subsidiaries_listed(accounts: &[Account], subsidiaries: &[Subsidiary]) -> bool
    requires { AreAccountsInOrder accounts.now }
    ensures { IsTrue result ↔ AreSubsidiariesListed accounts.now subsidiaries.now }
{
    for subsidiary in subsidiaries {
        if !is_listed(accounts, &subsidiary.account, NOWHERE) {
            return false;
        }
    }
    true
}

/// Whether the lead account and the subsidiaries of a unit are among these accounts.
fn is_unit_listed(accounts: &[Account], unit: &UnitData) -> bool
    requires { AreAccountsInOrder accounts.now }
    ensures { IsTrue result ↔ IsUnitListed accounts.now unit.now }
{
    is_listed(accounts, &unit.lead(), unit.lead_near())
        && are_subsidiaries_listed(accounts, unit.subsidiaries())
}

/// Whether the lead account and the subsidiaries of each unit are among these accounts.
fn are_units_listed(accounts: &[Account], units: &[UnitData]) -> bool
    requires { AreAccountsInOrder accounts.now }
    ensures { IsTrue result ↔ All (IsUnitListed accounts.now) units.now }
{
    for unit in units {
        if !is_unit_listed(accounts, unit) {
            return false;
        }
    }
    true
}

/// Whether no unit has more than 799 subsidiaries.
fn are_subsidiaries_few(units: &[UnitData]) -> bool
    ensures { IsTrue result ↔ All HasFewSubsidiaries units.now }
{
    for unit in units {
        if unit.subsidiaries().len() > MOST_SUBSIDIARIES {
            return false;
        }
    }
    true
}

/// Whether the seller and the buyer of a contract are among these accounts. Looks at the places `near`
/// first, which may be any.
fn is_contract_listed(accounts: &[Account], contract: &Contract, near: ContractPlaces) -> bool
    requires { AreAccountsInOrder accounts.now }
    ensures { IsTrue result ↔ IsContractListed accounts.now contract.now }
{
    is_listed(accounts, &contract.counterparties.seller, near.seller)
        && is_listed(accounts, &contract.counterparties.buyer, near.buyer)
}

/// Whether the seller and the buyer of each contract are among these accounts. Looks at the places `near`
/// first, which may be any.
fn are_contracts_listed(
    accounts: &[Account],
    contracts: &[Contract],
    near: &[ContractPlaces],
) -> bool
    requires { AreAccountsInOrder accounts.now }
    ensures { IsTrue result ↔ All (IsContractListed accounts.now) contracts.now }
{
    for (place, contract) in contracts.iter().enumerate() {
        if !is_contract_listed(accounts, contract, places_of_row(near, place)) {
            return false;
        }
    }
    true
}

/// The sum of net volumes, each of which is in its range.
fn sum_of_nets(nets: &[NetKwh]) -> i128
    ensures sum { result ≡ total (λ kwh. kwh) nets.now }
    ensures sizes { All IsNetVolume nets.now }
{
    let mut sum = 0i128;
    for net in nets {
        sum += i128::from(net.units());
    }
    sum
}

/// Whether there is a net volume for each account, and they sum to zero.
fn are_nets_ready(accounts: &[Account], nets: &[NetKwh]) -> bool
    ensures { IsTrue result ↔ AreNetsReady accounts.now nets.now }
{
    nets.len() == accounts.len() && sum_of_nets(nets) == 0
}

/// Whether contracts may be settled for these accounts. Looks for the accounts of rows at the places `near`
/// first, which may be any.
fn are_contracts_ready(accounts: &[Account], contracts: &Contracts, near: &[ContractPlaces]) -> bool
    requires { AreAccountsInOrder accounts.now }
    ensures { IsTrue result ↔ AreContractsReady accounts.now (contracts_given contracts.now) }
{
    match contracts {
        Contracts::Rows(rows) => are_contracts_listed(accounts, rows, near),
        Contracts::Net(nets) => are_nets_ready(accounts, nets),
    }
}

impl PeriodData {
    /// Whether the period may be settled. The accounts rise in account order. Each lead, subsidiary,
    /// seller and buyer is among them. No unit has more than 799 subsidiaries. Net volumes are one for
    /// each account, and sum to zero.
    pub fn is_ready(&self) -> bool
        ensures { IsTrue result ↔ IsReady self.now }
    {
        if !are_in_order(self.accounts()) {
            return false;
        }
        if !are_units_listed(self.accounts(), self.units()) {
            return false;
        }
        if !are_contracts_ready(self.accounts(), self.contracts(), self.contracts_near()) {
            return false;
        }
        are_subsidiaries_few(self.units())
    }
}
