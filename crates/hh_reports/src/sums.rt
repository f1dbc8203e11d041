//! The sums of amounts for accounts.

ghost use Rattle.std.specs.Prelude.{◌≡◌, ◌<◌, ◌≤◌, ◌+◌, ◌*◌, ◌^◌, ◌+ℤ◌, [], ◌∷◌, ◌++◌, nat_le, unsigned_abs, OnErr, OnOk};
ghost use Rattle.std.specs.FinMap.{put};
ghost use Rattle.hh_names.specs.Accounts.{account_cmp};
ghost use Rattle.hh_calc.specs.Settled.{paid_by};
ghost use Rattle.hh_reports.specs.Nets.{Amounts};
ghost use Rattle.hh_reports.specs.Writers.{HasAmounts};
ghost use Rattle.hh_reports.specs.steps.Nets.{greatest_amount, sum_in};

use hh_calc::AccountRow;
use hh_names::Account;
use hh_num::Pence;
use hh_tables::ListTable;
use std::alloc::{AllocError, Global};
use std::marker::Model;

/// The most amounts that are taken, so that their sums fit.
const MOST_AMOUNTS: u64 = 1 << 62;

/// Sums of pence, in account order.
pub(crate) type SumTable = ListTable<Account, i128>;

/// An amount of pence with its account, at most 2^64 in size.
#[derive(Clone, Copy)]
struct Amount {
    account: Account,
    pence: i128,
}

impl Model for Amount {
    ghost use Rattle.std.specs.Prelude.{◌≤◌, ℤ, unsigned_abs};
    ghost use Rattle.hh_names.specs.declared.account.Account.{Account};
    ghost use Rattle.hh_reports.specs.steps.Nets.{greatest_amount};

    ghost Value = { Account × ℤ };

    ghost view = { λ a. (a.account, a.pence) };

    ghost invariant = { λ a. unsigned_abs a.pence ≤ greatest_amount };

    ghost inverse = { λ v. record { account = v.0; pence = v.1 } };
}

/// The sum of amounts for each account. It is given one amount after another. It keeps one sum for each
/// account, and no amounts. Contracts see the sums in account order, and how many amounts were given.
#[derive(Drop)]
pub struct AccountSums {
    sums: SumTable,
    /// The place where the sum of the next amount's account is likely to be.
    place: usize,
    given: u64,
}

impl Model for AccountSums {
    ghost use Rattle.hh_reports.specs.Writers.{SumsState};
    ghost use Rattle.hh_reports.specs.steps.Nets.{AreSmall};

    ghost Value = { SumsState };

    ghost view = { λ s. record { sums = s.sums; given = s.given } };

    ghost invariant = { λ s. AreSmall s.given s.sums };
}

impl AccountSums {
    /// The sums of no amounts. Takes no memory.
    pub fn new(alloc: Global) -> AccountSums
        ensures { HasAmounts result [] }
    {
        AccountSums {
            sums: SumTable::new(alloc),
            place: 0,
            given: 0,
        }
    }

    /// Whether no more amounts are taken: 2^62 were given.
    pub fn is_full(&self) -> bool
        ensures { result ≡ nat_le (2 ^ 62) self.now.given }
    {
        self.given >= MOST_AMOUNTS
    }

    /// Takes an amount in pence that was posted to an account. At most 2^62 amounts are taken, so that
    /// their sums fit. `Err` only if memory is refused: the sums can't be used after that.
    pub fn posting(&mut self, account: Account, amount: Pence) -> Result<(), AllocError>
        requires few { self.old.given < 2 ^ 62 }
        ensures { (amounts : Amounts) → HasAmounts self.old amounts
            → OnOk result (HasAmounts self.new (amounts ++ (account, amount) ∷ [])) }
    {
        self.add(Amount {
            account,
            pence: i128::from(amount.units()),
        })
    }

    /// Takes what a row moves for its account.
    pub(crate) fn row(&mut self, row: &AccountRow) -> Result<(), AllocError>
        requires few { self.old.given < 2 ^ 62 }
        ensures more { OnOk result (self.new.given ≡ self.old.given + 1) }
        ensures kept { OnErr result (self.new.given ≡ self.old.given) }
        ensures sums { (amounts : Amounts) → HasAmounts self.old amounts
            → OnOk result (HasAmounts self.new
            (amounts ++ (row.now.account, paid_by row.now) ∷ [])) }
    {
        self.add(cash_of_row(row))
    }

    /// Takes an amount.
    fn add(&mut self, amount: Amount) -> Result<(), AllocError>
        requires few { self.old.given < 2 ^ 62 }
        ensures more { OnOk result (self.new.given ≡ self.old.given + 1) }
        ensures kept { OnErr result (self.new.given ≡ self.old.given) }
        ensures sums { (amounts : Amounts) → HasAmounts self.old amounts
            → OnOk result (HasAmounts self.new (amounts ++ amount ∷ [])) }
    {
        add_to(&mut self.sums, self.place, amount)?;
        self.place = place_behind(&self.sums, self.place, &amount);
        self.given += 1;
        Ok(())
    }

    /// The sums, in account order.
    pub(crate) fn into_table(self) -> SumTable
        ensures { result ≡ self.sums }
    {
        self.sums
    }
}

/// What a row moves for its account.
fn cash_of_row(row: &AccountRow) -> Amount
    ensures { result ≡ (row.now.account, paid_by row.now) }
{
    Amount {
        account: row.account,
        pence: i128::from(row.charge.units()) + i128::from(row.share.units()),
    }
}

/// The place after that of an amount's account, which is likely this one. The sum of the next amount's
/// account is likely to be there, because each Settlement Period has rows of the same accounts in the
/// same order.
fn place_behind(sums: &SumTable, place: usize, amount: &Amount) -> usize {
    let rows = sums.rows();
    if place < rows.len() && rows[place].0 == amount.account {
        return place + 1;
    }
    sums.count_below(&amount.account).saturating_add(1)
}

/// Adds an amount to the sum of its account. Looks for the account at this place first.
fn add_to(sums: &mut SumTable, place: usize, amount: Amount) -> Result<(), AllocError>
    requires { unsigned_abs (sum_in sums.old amount.0) ≤ 2 ^ 62 * greatest_amount }
    ensures added { OnOk result (sums.new
        ≡ put account_cmp amount.0 (sum_in sums.old amount.0 +ℤ amount.1) sums.old) }
    ensures kept { OnErr result (sums.new ≡ sums.old) }
    ensures small { unsigned_abs amount.1 ≤ greatest_amount }
{
    let sum = sums.get_near(place, &amount.account).unwrap_or(0) + amount.pence;
    sums.put_near(place, amount.account, sum)
}
