//! The columns of an account's row of a run, beside its key.

ghost use Rattle.std.specs.Prelude.{◌≡◌};
ghost use Rattle.hh_keyed_rows.specs.Values.{amounts_of, account_row_of};

use hh_names::Account;
use hh_num::{Pence, Ticks};
use hh_store::AccountRow;

/// What an account has, pays and bears in a Settlement Period of a run. The account itself is in the key.
/// Energy is in ticks, cash in pence.
#[derive(Clone, Copy, Debug, PartialEq, Eq)]
pub struct AccountAmounts {
    pub credited: Ticks,
    pub balancing: Ticks,
    pub contracts: Ticks,
    pub imbalance: Ticks,
    pub charge: Pence,
    /// The account's share of the residual.
    pub share: Pence,
}

impl AccountAmounts {
    /// The amounts of an account's row.
    pub fn of(row: &AccountRow) -> AccountAmounts
        ensures { result ≡ amounts_of row.now }
    {
        AccountAmounts {
            credited: row.credited,
            balancing: row.balancing,
            contracts: row.contracts,
            imbalance: row.imbalance,
            charge: row.charge,
            share: row.share,
        }
    }

    /// The row of an account with these amounts.
    pub fn with(self, account: Account) -> AccountRow
        ensures { result ≡ account_row_of account self }
    {
        AccountRow {
            account,
            credited: self.credited,
            balancing: self.balancing,
            contracts: self.contracts,
            imbalance: self.imbalance,
            charge: self.charge,
            share: self.share,
        }
    }
}
