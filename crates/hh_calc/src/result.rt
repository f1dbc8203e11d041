//! A settled period.

ghost use Rattle.std.specs.Prelude.{◌≡◌, neg_ℤ, IfOk, IfSome};
ghost use Rattle.hh_share.specs.Totals.{total};
ghost use Rattle.hh_calc.specs.Terms.{settled_as, settled_period};

use hh_names::{Account, UnitId};
use hh_share::{Pence, Ticks};
use std::alloc::{AllocError, AllocFailed, Global};
use std::marker::Model;

/// An account's figures in a settled period: energy in ticks, cash in pence.
#[derive(Clone, Copy, Debug, PartialEq, Eq)]
pub struct AccountRow {
    pub account: Account,
    pub credited: Ticks,
    pub balancing: Ticks,
    pub contracts: Ticks,
    pub imbalance: Ticks,
    pub charge: Pence,
    /// The account's share of the residual.
    pub share: Pence,
}

/// The figures of an account in a period, without its share of the residual: energy in ticks, cash in
/// pence.
#[derive(Clone, Copy, Debug, PartialEq, Eq)]
pub struct Figures {
    pub account: Account,
    pub credited: Ticks,
    pub balancing: Ticks,
    pub contracts: Ticks,
    pub imbalance: Ticks,
    pub charge: Pence,
}

/// The energy that an account is credited with from a unit, in ticks.
#[derive(Clone, Copy, Debug, PartialEq, Eq)]
pub struct CreditRow {
    pub unit: UnitId,
    pub account: Account,
    pub credited: Ticks,
}

/// A settled period: a row for each account in account order, the credits from each unit, and the
/// residual cashflow.
#[derive(Debug, Drop)]
pub struct PeriodResult {
    accounts: Vec<AccountRow>,
    credits: Vec<CreditRow>,
    residual: Pence,
}

impl Model for PeriodResult {
    ghost use Rattle.hh_calc.specs.Terms.{Settled};

    ghost Value = { Settled };

    ghost view = { λ r. record { accounts = r.accounts.items; credits = r.credits.items; residual = r.residual } };
}

impl PeriodResult {
    pub(crate) fn new(
        accounts: Vec<AccountRow>,
        credits: Vec<CreditRow>,
        residual: Pence,
    ) -> PeriodResult
        ensures { result ≡ settled_period accounts.items credits.items residual }
    {
        PeriodResult {
            accounts,
            credits,
            residual,
        }
    }

    /// The settled period of these rows and credits. Its residual is minus the sum of the charges. `None`
    /// only if that sum is out of the range of cash for the rows up to some place.
    pub fn of_rows(accounts: Vec<AccountRow>, credits: Vec<CreditRow>) -> Option<PeriodResult>
        ensures { IfSome result (λ r. r ≡ settled_as accounts.items credits.items) }
    {
        let residual = residual_of(&accounts)?;
        Some(PeriodResult {
            accounts,
            credits,
            residual,
        })
    }

    /// A copy. `Err` only if memory is refused.
    pub fn copy(&self, alloc: Global) -> Result<PeriodResult, AllocError>
        ensures { IfOk result (λ copied. copied ≡ self.now) }
    {
        Ok(PeriodResult {
            accounts: Vec::from_slice(alloc, &self.accounts)?,
            credits: Vec::from_slice(alloc, &self.credits)?,
            residual: self.residual,
        })
    }

    /// The rows of the accounts, in account order.
    pub fn accounts(&self) -> &[AccountRow]
        ensures { result.now ≡ self.now.accounts }
    {
        &self.accounts
    }

    /// The credits from each unit to its lead account and its subsidiaries, by the bytes of the
    /// unit's id, then by account.
    pub fn credits(&self) -> &[CreditRow]
        ensures { result.now ≡ self.now.credits }
    {
        &self.credits
    }

    /// Minus the sum of the charges, in pence.
    pub fn residual(&self) -> Pence
        ensures { result ≡ self.now.residual }
    {
        self.residual
    }
}

/// Minus the sum of the charges of these rows, if it is in the range of cash for the rows up to each place.
fn residual_of(rows: &[AccountRow]) -> Option<Pence>
    ensures { IfSome result (λ residual. residual ≡ neg_ℤ (total (λ r. r.charge) rows.now)) }
{
    let mut residual = 0i64;
    for row in rows {
        residual = residual.checked_sub(row.charge.units())?;
    }
    Pence::new(residual)
}

/// Why a period is not settled.
#[derive(Clone, Copy, Debug, PartialEq, Eq)]
pub enum CalcFault {
    /// A figure passes a limit of a run: refusal 55.
    TooLarge,
    /// Memory was refused: refusal 90.
    Memory,
}

impl From<AllocError> for CalcFault {
    ghost use Rattle.std.specs.Prelude.{◌≡◌};
    ghost use Rattle.hh_calc.specs.declared.result.CalcFault.TheVariants.{Memory};

    ghost from_gives = { λ _ fault. fault ≡ Memory };

    fn from(_error: AllocError) -> CalcFault {
        CalcFault::Memory
    }
}

impl<T: Drop> From<AllocFailed<T>> for CalcFault {
    ghost use Rattle.std.specs.Prelude.{◌≡◌};
    ghost use Rattle.hh_calc.specs.declared.result.CalcFault.TheVariants.{Memory};

    ghost from_gives = { λ _ fault. fault ≡ Memory };

    fn from(_error: AllocFailed<T>) -> CalcFault {
        CalcFault::Memory
    }
}
