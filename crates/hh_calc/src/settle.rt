//! The settlement of one period.

ghost use Rattle.std.specs.Prelude.{◌≡◌, ◌≤◌, ◌^◌, ◌*◌, neg_ℤ, unsigned_abs, length, map, nat_le, All, IfOk, IsTrue, IsFalse, Err};
ghost use Rattle.hh_calc.specs.Formulas.{all_figures, charge_for, figures_from, residual, weights};
ghost use Rattle.hh_calc.specs.steps.Formulas.{all_sums};
ghost use Rattle.hh_calc.specs.Limits.{are_all_within, are_within, greatest_cash, greatest_energy, is_at_most, is_within_limits};
ghost use Rattle.hh_calc.specs.steps.Limits.{kept_where};
ghost use Rattle.hh_calc.specs.Ready.{AreInOrder, AreListed, AreSubsidiariesFew};
ghost use Rattle.hh_calc.specs.Settled.{figures_of, shares_shown, AddsUp, IsSettled, SharesDepartLeast};
ghost use Rattle.hh_calc.specs.steps.Sums.{greatest_sum, IsWithin};

use crate::credits::sorted_credits;
use crate::data::PeriodData;
use crate::ledger::ledger_of;
use crate::result::{AccountRow, CalcFault, Figures, PeriodResult};
use crate::sums::AccountSums;
use hh_names::Account;
use hh_share::{Pence, Price, Ticks, apportion, round_div};
use std::alloc::{AllocError, Global};

/// The greatest energy of an account in a period, in ticks.
const GREATEST_ENERGY: u128 = 100_000_000_000_000_000;

/// The greatest charge of an account, and the greatest residual of a period, in pence.
const GREATEST_CASH: u128 = 1_000_000_000_000;

/// How many products of a tick and a unit of the price make a penny.
const PRICE_UNITS_PER_PENNY: i128 = 10_000_000_000_000;

/// An energy, if its size is within the limit of a run.
fn energy_within(ticks: i128) -> Option<Ticks>
    ensures { result ≡ kept_where (is_at_most greatest_energy ticks) ticks }
{
    if ticks.unsigned_abs() <= GREATEST_ENERGY {
        Some(Ticks::of(ticks as i64))
    } else {
        None
    }
}

/// A weight, if it is within the limit of a run.
fn weight_within(weight: u128) -> Option<u64>
    ensures { result ≡ kept_where (nat_le weight greatest_energy) weight }
{
    if weight <= GREATEST_ENERGY {
        Some(weight as u64)
    } else {
        None
    }
}

/// An amount of cash, if its size is within the limit of a run.
fn cash_within(pence: i128) -> Option<Pence>
    ensures { result ≡ kept_where (is_at_most greatest_cash pence) pence }
{
    if pence.unsigned_abs() <= GREATEST_CASH {
        Some(Pence::of(pence as i64))
    } else {
        None
    }
}

/// The figures of an account from its sums, if none of them passes a limit.
fn figures_within(account: Account, sums: AccountSums, price: Price) -> Option<Figures>
    requires { IsWithin greatest_sum sums }
    ensures { let figures = figures_from account sums price in
        result ≡ kept_where (are_within figures) figures }
{
    let imbalance = sums.credited - sums.balancing - sums.contracts;
    let credited = energy_within(sums.credited)?;
    let balancing = energy_within(sums.balancing)?;
    let contracts = energy_within(sums.contracts)?;
    let imbalance = energy_within(imbalance)?;
    let charge = cash_within(charge_of(imbalance, price))?;
    Some(Figures {
        account,
        credited,
        balancing,
        contracts,
        imbalance,
        charge,
    })
}

/// The charge for an imbalance, in pence: what the account pays, negative if it is paid.
fn charge_of(imbalance: Ticks, price: Price) -> i128
    requires { unsigned_abs imbalance ≤ greatest_energy }
    ensures { result ≡ charge_for imbalance price }
{
    round_div(
        -(i128::from(imbalance.units()) * i128::from(price.units())),
        PRICE_UNITS_PER_PENNY,
    )
}

/// What the accounts have before the residual is shared out: their figures and weights, in account
/// order, and the residual in pence.
#[derive(Drop)]
struct Charged {
    figures: Vec<Figures>,
    weights: Vec<u64>,
    residual: i128,
}

/// The figures of the accounts from their sums, their weights, and the residual, which is minus the sum
/// of their charges.
fn charged_accounts(
    alloc: Global,
    period: &PeriodData,
    sums: &[AccountSums],
) -> Result<Charged, CalcFault>
    requires sums { sums.now ≡ all_sums period.now }
    requires small { All (IsWithin greatest_sum) sums.now }
    ensures figures { IfOk result (λ c. c.figures.items ≡ all_figures period.now) }
    ensures weights { IfOk result (λ c. c.weights.items ≡ weights period.now) }
    ensures within { IfOk result (λ c. IsTrue (are_all_within period.now)) }
    ensures residual { IfOk result (λ c. c.residual ≡ residual period.now) }
    ensures too_large { result ≡ Err CalcFault.TooLarge → IsFalse (are_all_within period.now) }
{
    let accounts = period.accounts();
    let mut figures = Vec::with_capacity(alloc, accounts.len())?;
    let mut weights = Vec::with_capacity(alloc, accounts.len())?;
    let mut residual = 0i128;
    for (place, account) in accounts.iter().enumerate() {
        let Some(of_account) = figures_within(*account, sums[place], period.price()) else {
            return Err(CalcFault::TooLarge);
        };
        let Some(weight) = weight_within(sums[place].weight) else {
            return Err(CalcFault::TooLarge);
        };
        residual -= i128::from(of_account.charge.units());
        figures.push(of_account)?;
        weights.push(weight)?;
    }
    Ok(Charged {
        figures,
        weights,
        residual,
    })
}

/// The row of an account from its figures and its share.
fn row_of(figures: &Figures, share: i64) -> AccountRow
    requires { unsigned_abs share ≤ greatest_cash }
    ensures figures { figures_of result ≡ figures.now }
    ensures share { result.share ≡ share }
{
    AccountRow {
        account: figures.account,
        credited: figures.credited,
        balancing: figures.balancing,
        contracts: figures.contracts,
        imbalance: figures.imbalance,
        charge: figures.charge,
        share: Pence::of(share),
    }
}

/// The rows of the accounts from their figures and their shares.
fn rows_of(
    alloc: Global,
    figures: &[Figures],
    shares: &[i64],
) -> Result<Vec<AccountRow>, AllocError>
    requires each { length shares.now ≡ length figures.now }
    requires small { All (λ s. unsigned_abs s ≤ greatest_cash) shares.now }
    ensures figures { IfOk result (λ rows. map figures_of rows.items ≡ figures.now) }
    ensures shares { IfOk result (λ rows. shares_shown rows.items ≡ shares.now) }
{
    let mut rows = Vec::with_capacity(alloc, figures.len())?;
    for (place, share) in shares.iter().enumerate() {
        rows.push(row_of(&figures[place], *share))?;
    }
    Ok(rows)
}

/// Settles a period: the figures and the share of each account in account order, the credits from
/// each unit, and the residual cashflow (Section T; shares are profile).
///
/// The accounts rise in account order, and each lead, subsidiary, seller and buyer is among them.
/// No unit has more than 799 subsidiaries. Net volumes are one for each account, and sum to zero.
///
/// # Errors
///
/// `TooLarge`, 55, exactly if a figure, a weight or the residual passes a limit of a run.
/// `Memory`, 90, if memory is refused.
pub fn settle_period(alloc: Global, period: &PeriodData) -> Result<PeriodResult, CalcFault>
    requires ordered { AreInOrder period.now }
    requires listed { AreListed period.now }
    requires few { AreSubsidiariesFew period.now }
    ensures settled { IfOk result (λ r. IsSettled period.now r) }
    ensures sums { IfOk result (λ r. AddsUp period.now r) }
    ensures least { IfOk result (λ r. SharesDepartLeast period.now r) }
    ensures within { IfOk result (λ r. IsTrue (is_within_limits period.now)) }
    ensures too_large { result ≡ Err CalcFault.TooLarge → IsFalse (is_within_limits period.now) }
{
    let ledger = ledger_of(alloc, period)?;
    let charged = charged_accounts(alloc, period, &ledger.sums)?;
    let Some(residual) = cash_within(charged.residual) else {
        return Err(CalcFault::TooLarge);
    };
    let shares = apportion(alloc, residual.units(), &charged.weights)?;
    let rows = rows_of(alloc, &charged.figures, &shares)?;
    Ok(PeriodResult::new(rows, sorted_credits(ledger.credits), residual))
}
