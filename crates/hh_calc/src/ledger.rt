//! The credits of a period and the sums of its accounts, which are computed together.

ghost use Rattle.std.specs.Prelude.{◌≡◌, ◌+◌, ◌*◌, ◌++◌, [], length, map, replicate, All, IfOk, IsPermutation, OnOk};
ghost use Rattle.hh_calc.specs.Formulas.{credits_of, unit_credits, unit_sums};
ghost use Rattle.hh_calc.specs.Terms.{contracts_given};
ghost use Rattle.hh_calc.specs.steps.Formulas.{all_sums};
ghost use Rattle.hh_calc.specs.Ready.{AreAccountsInOrder, AreContractsReady, AreInOrder, AreListed, AreSubsidiariesFew, HasFewSubsidiaries, IsUnitListed};
ghost use Rattle.hh_calc.specs.steps.Sums.{greatest_credit, greatest_sum, greatest_unit_sum, greatest_volume, no_sums, with_net_by, with_unit, AreChanged, AreGrown, IsWithin};

use crate::credits::{push_credits, put_last_in_place};
use crate::data::{ContractPlaces, Contracts, PeriodData, UnitData};
use crate::result::CreditRow;
use crate::sums::{
    AccountSums, add_contracts, add_credits, add_nets, add_to, amounts_of_balancing,
};
use hh_names::Account;
use std::alloc::{AllocError, Global};

/// The credits from the units of a period, one unit's after another's, and the sums of its
/// accounts, in account order.
#[derive(Drop)]
pub(crate) struct Ledger {
    pub credits: Vec<CreditRow>,
    pub sums: Vec<AccountSums>,
}

/// Appends the credits from a unit, and adds them and its balancing volume to the sums. The credits are
/// in account order if the unit's subsidiaries are.
fn add_unit(
    accounts: &[Account],
    unit: &UnitData,
    credits: &mut Vec<CreditRow>,
    sums: &mut [AccountSums],
) -> Result<(), AllocError>
    requires ordered { AreAccountsInOrder accounts.now }
    requires listed { IsUnitListed accounts.now unit.now }
    requires few { HasFewSubsidiaries unit.now }
    requires each { length sums.old ≡ length accounts.now }
    requires room { All (IsWithin greatest_sum) sums.old }
    ensures credits { let made = credits.old.items ++ unit_credits unit.now in
        OnOk result (IsPermutation made credits.new.items) }
    ensures added { OnOk result (AreChanged accounts.now (with_unit unit.now) sums.old sums.new) }
    ensures grown { let credits_grow = length (unit_credits unit.now) * greatest_credit in
        OnOk result (AreGrown (credits_grow + greatest_volume) sums.old sums.new) }
{
    let first = credits.len();
    push_credits(credits, unit)?;
    let (near, weighs) = (unit.lead_near(), !unit.is_interconnector());
    add_credits(accounts, &credits[first..], near, weighs, sums);
    add_to(
        accounts,
        &unit.lead(),
        near,
        amounts_of_balancing(unit),
        sums,
    );
    put_last_in_place(&mut credits[first..]);
    Ok(())
}

/// Appends the credits from units, and adds them and the balancing volumes to sums that are still 0.
fn add_units(
    accounts: &[Account],
    units: &[UnitData],
    credits: &mut Vec<CreditRow>,
    sums: &mut [AccountSums],
) -> Result<(), AllocError>
    requires ordered { AreAccountsInOrder accounts.now }
    requires listed { All (IsUnitListed accounts.now) units.now }
    requires few { All HasFewSubsidiaries units.now }
    requires none { credits.old.items ≡ [] }
    requires start { sums.old ≡ replicate (length accounts.now) no_sums }
    ensures credits { OnOk result (IsPermutation (credits_of units.now) credits.new.items) }
    ensures sums { OnOk result (sums.new ≡ map (unit_sums units.now) accounts.now) }
    ensures small { OnOk result (All (IsWithin greatest_unit_sum) sums.new) }
{
    for unit in units {
        add_unit(accounts, unit, credits, sums)?;
    }
    Ok(())
}

/// Adds to the sums of each account what it sells less what it buys, from the rows or its net volume. Looks
/// for the accounts of rows at the places `near` first.
fn add_net_contracts(
    accounts: &[Account],
    contracts: &Contracts,
    near: &[ContractPlaces],
    sums: &mut [AccountSums],
)
    requires ordered { AreAccountsInOrder accounts.now }
    requires ready { AreContractsReady accounts.now (contracts_given contracts.now) }
    requires each { length sums.old ≡ length accounts.now }
    requires room { All (IsWithin greatest_unit_sum) sums.old }
    ensures added { let contracts_seen = contracts_given contracts.now in
        AreChanged accounts.now (with_net_by accounts.now contracts_seen) sums.old sums.new }
    ensures small { All (IsWithin greatest_sum) sums.new }
{
    match contracts {
        Contracts::Rows(rows) => add_contracts(accounts, rows, near, sums),
        Contracts::Net(nets) => add_nets(accounts, nets, sums),
    }
}

/// Appends the credits of a period, and adds them, the balancing volumes and the contracts to sums
/// that are still 0.
fn add_period(
    period: &PeriodData,
    credits: &mut Vec<CreditRow>,
    sums: &mut [AccountSums],
) -> Result<(), AllocError>
    requires ordered { AreInOrder period.now }
    requires listed { AreListed period.now }
    requires few { AreSubsidiariesFew period.now }
    requires none { credits.old.items ≡ [] }
    requires start { sums.old ≡ replicate (length period.now.accounts) no_sums }
    ensures credits { OnOk result (IsPermutation (credits_of period.now.units) credits.new.items) }
    ensures sums { OnOk result (sums.new ≡ all_sums period.now) }
    ensures small { OnOk result (All (IsWithin greatest_sum) sums.new) }
{
    add_units(period.accounts(), period.units(), credits, sums)?;
    add_net_contracts(
        period.accounts(),
        period.contracts(),
        period.contracts_near(),
        sums,
    );
    Ok(())
}

/// How many credits units have: one to each subsidiary, and one to the lead account.
fn credit_count(units: &[UnitData]) -> usize {
    units.iter().fold(0, |count: usize, unit| {
        count
            .saturating_add(unit.subsidiaries().len())
            .saturating_add(1)
    })
}

/// The credits of a period and the sums of its accounts.
pub(crate) fn ledger_of(alloc: Global, period: &PeriodData) -> Result<Ledger, AllocError>
    requires ordered { AreInOrder period.now }
    requires listed { AreListed period.now }
    requires few { AreSubsidiariesFew period.now }
    ensures credits { let made = credits_of period.now.units in
        IfOk result (λ l. IsPermutation made l.credits.items) }
    ensures sums { IfOk result (λ l. l.sums.items ≡ all_sums period.now) }
    ensures small { IfOk result (λ l. All (IsWithin greatest_sum) l.sums.items) }
{
    let mut credits = Vec::with_capacity(alloc, credit_count(period.units()))?;
    let mut sums = vec![in alloc; AccountSums::NONE; period.accounts().len()]?;
    add_period(period, &mut credits, &mut sums)?;
    Ok(Ledger { credits, sums })
}
