//! The sums of the accounts of a period.

ghost use Rattle.std.specs.Prelude.{◌*ℤ◌, ◌≡◌, ◌<◌, ◌≤◌, ◌*◌, ◌+◌, ℕ, length, All, unsigned_abs};
ghost use Rattle.std.specs.List.{HoldsAt, zip};
ghost use Rattle.hh_calc.specs.Formulas.{balancing_ticks, contracted, ticks_per_kwh};
ghost use Rattle.hh_calc.specs.Ready.{most_subsidiaries, AreAccountsInOrder, IsContractListed, IsListed};
ghost use Rattle.hh_calc.specs.steps.Ready.{IsCreditListed};
ghost use Rattle.hh_calc.specs.steps.Sums.{added_at, greatest_credit, greatest_sum, greatest_unit_sum, greatest_volume, balancing_amounts, contract_amounts, credit_amounts, no_sums, sums_plus, with_amounts, with_contract, with_contracts, with_credits, with_nets, AreChanged, AreGrown, IsCreditSmall, IsWithin};

use crate::data::{ContractPlaces, UnitData};
use crate::places::{place_of, places_of_row};
use crate::result::CreditRow;
use hh_names::{Account, Contract};
use hh_share::NetKwh;

/// How many ticks a kWh has.
const TICKS_PER_KWH: i128 = 10_000_000;

/// The sums of one account, or what is added to them, all in ticks.
#[derive(Clone, Copy)]
pub(crate) struct AccountSums {
    pub credited: i128,
    pub balancing: i128,
    /// Net contracts: what is sold less what is bought.
    pub contracts: i128,
    /// The sizes of the credits that weigh.
    pub weight: u128,
}

impl AccountSums {
    /// The sums of an account before anything is added.
    pub(crate) const NONE: AccountSums = AccountSums {
        credited: 0,
        balancing: 0,
        contracts: 0,
        weight: 0,
    };
}

/// Sums with amounts added to them.
fn sums_with(held: AccountSums, amounts: AccountSums) -> AccountSums
    requires held { IsWithin (2 * greatest_sum) held }
    requires amounts { IsWithin greatest_credit amounts }
    ensures { result ≡ sums_plus held amounts }
{
    AccountSums {
        credited: held.credited + amounts.credited,
        balancing: held.balancing + amounts.balancing,
        contracts: held.contracts + amounts.contracts,
        weight: held.weight + amounts.weight,
    }
}

/// Adds amounts to the sums at a place.
fn add_at(sums: &mut [AccountSums], place: usize, amounts: AccountSums)
    requires inside { place < length sums.old }
    requires room { All (IsWithin (2 * greatest_sum)) sums.old }
    requires small { IsWithin greatest_credit amounts }
    ensures { sums.new ≡ added_at sums.old place amounts }
{
    sums[place] = sums_with(sums[place], amounts);
}

/// Adds amounts to the sums of an account. Looks for the account at the place `near` first.
pub(crate) fn add_to(
    accounts: &[Account],
    account: &Account,
    near: usize,
    amounts: AccountSums,
    sums: &mut [AccountSums],
)
    requires ordered { AreAccountsInOrder accounts.now }
    requires listed { IsListed accounts.now account.now }
    requires each { length sums.old ≡ length accounts.now }
    requires room { All (IsWithin (2 * greatest_sum)) sums.old }
    requires small { IsWithin greatest_credit amounts }
    ensures added { AreChanged accounts.now (with_amounts account.now amounts) sums.old sums.new }
    ensures grown { (most : ℕ) → IsWithin most amounts → AreGrown most sums.old sums.new }
{
    match place_of(accounts, account, near) {
        Some(place) => add_at(sums, place, amounts),
        None => unreachable!(),
    }
}

/// What a credit adds to its account's sums.
fn amounts_of_credit(credit: &CreditRow, weighs: bool) -> AccountSums
    requires { IsCreditSmall credit.now }
    ensures amounts { result ≡ credit_amounts weighs credit.now.credited }
    ensures small { IsWithin greatest_credit result }
{
    let credited = credit.credited.units();
    AccountSums {
        credited: i128::from(credited),
        weight: if weighs {
            u128::from(credited.unsigned_abs())
        } else {
            0
        },
        ..AccountSums::NONE
    }
}

/// Adds each credit to its account's sums, and its size to the account's weight if the credits weigh.
/// Looks for each account at the place `near` first.
pub(crate) fn add_credits(
    accounts: &[Account],
    credits: &[CreditRow],
    near: usize,
    weighs: bool,
    sums: &mut [AccountSums],
)
    requires ordered { AreAccountsInOrder accounts.now }
    requires listed { All (IsCreditListed accounts.now) credits.now }
    requires small { All IsCreditSmall credits.now }
    requires few { length credits.now ≤ most_subsidiaries + 1 }
    requires each { length sums.old ≡ length accounts.now }
    requires room { All (IsWithin greatest_sum) sums.old }
    ensures added { AreChanged accounts.now (with_credits weighs credits.now) sums.old sums.new }
    ensures grown { AreGrown (length credits.now * greatest_credit) sums.old sums.new }
{
    for credit in credits {
        add_to(
            accounts,
            &credit.account,
            near,
            amounts_of_credit(credit, weighs),
            sums,
        );
    }
}

/// What a unit's balancing volume adds to its lead account's sums.
pub(crate) fn amounts_of_balancing(unit: &UnitData) -> AccountSums
    ensures amounts { result ≡ balancing_amounts (balancing_ticks unit.now) }
    ensures small { IsWithin greatest_volume result }
{
    let reading = unit.reading();
    AccountSums {
        balancing: i128::from(reading.balancing.units()) * i128::from(reading.tlm.units()),
        ..AccountSums::NONE
    }
}

/// The volume of a contract, in ticks.
fn contracted_volume(contract: &Contract) -> i128
    ensures volume { result ≡ contracted contract.now }
    ensures size { unsigned_abs result ≤ greatest_volume }
{
    i128::from(contract.volume.units()) * TICKS_PER_KWH
}

/// What a contracted volume adds to its account's sums.
fn amounts_of_contract(volume: i128) -> AccountSums
    requires { unsigned_abs volume ≤ greatest_volume }
    ensures amounts { result ≡ contract_amounts volume }
    ensures small { IsWithin greatest_volume result }
{
    AccountSums {
        contracts: volume,
        ..AccountSums::NONE
    }
}

/// Adds the volume of a contract to its seller's sums, and takes it from its buyer's. Looks for their
/// accounts at the places `near` first.
fn add_contract(
    accounts: &[Account],
    contract: &Contract,
    near: ContractPlaces,
    sums: &mut [AccountSums],
)
    requires ordered { AreAccountsInOrder accounts.now }
    requires listed { IsContractListed accounts.now contract.now }
    requires each { length sums.old ≡ length accounts.now }
    requires room { All (IsWithin greatest_sum) sums.old }
    ensures added { AreChanged accounts.now (with_contract contract.now) sums.old sums.new }
    ensures grown { AreGrown (2 * greatest_volume) sums.old sums.new }
{
    let volume = contracted_volume(contract);
    let counterparties = contract.counterparties;
    add_to(
        accounts,
        &counterparties.seller,
        near.seller,
        amounts_of_contract(volume),
        sums,
    );
    add_to(
        accounts,
        &counterparties.buyer,
        near.buyer,
        amounts_of_contract(-volume),
        sums,
    );
}

/// Adds the volume of each contract to its seller's sums, and takes it from its buyer's. Looks for the
/// accounts of each row at the places `near` first.
pub(crate) fn add_contracts(
    accounts: &[Account],
    contracts: &[Contract],
    near: &[ContractPlaces],
    sums: &mut [AccountSums],
)
    requires ordered { AreAccountsInOrder accounts.now }
    requires listed { All (IsContractListed accounts.now) contracts.now }
    requires each { length sums.old ≡ length accounts.now }
    requires room { All (IsWithin greatest_unit_sum) sums.old }
    ensures added { AreChanged accounts.now (with_contracts contracts.now) sums.old sums.new }
    ensures grown { AreGrown (length contracts.now * (2 * greatest_volume)) sums.old sums.new }
{
    for (place, contract) in contracts.iter().enumerate() {
        add_contract(accounts, contract, places_of_row(near, place), sums);
    }
}

/// What a net volume adds to its account's sums.
fn amounts_of_net(net: NetKwh) -> AccountSums
    ensures amounts { result ≡ contract_amounts (net *ℤ ticks_per_kwh) }
    ensures small { IsWithin greatest_credit result }
{
    AccountSums {
        contracts: i128::from(net.units()) * TICKS_PER_KWH,
        ..AccountSums::NONE
    }
}

/// Adds to the sums of each account its net volume. Accounts and net volumes are in the same order.
pub(crate) fn add_nets(accounts: &[Account], nets: &[NetKwh], sums: &mut [AccountSums])
    requires ordered { AreAccountsInOrder accounts.now }
    requires own { length nets.now ≡ length accounts.now }
    requires each { length sums.old ≡ length accounts.now }
    requires room { All (IsWithin greatest_unit_sum) sums.old }
    ensures added { let entries = zip accounts.now nets.now in
        AreChanged accounts.now (with_nets entries) sums.old sums.new }
    ensures grown { AreGrown (length accounts.now * greatest_credit) sums.old sums.new }
{
    for (place, account) in accounts.iter().enumerate() {
        add_to(accounts, account, place, amounts_of_net(nets[place]), sums);
    }
}
