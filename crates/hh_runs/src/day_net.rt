//! What accounts pay over a Settlement Day.

ghost use Rattle.std.proofs.Common.{rules};
ghost use Rattle.hh_runs.specs.DayNets.{day_cash};

use hh_names::{Account, Quantity, Scaled};
use hh_tables::ListTable;

/// Cash over a Settlement Day: whole pence, at most 10^14 in size, positive if the account pays.
#[derive(Clone, Copy, Debug, PartialEq, Eq, PartialOrd, Ord)]
pub struct DayCash;

impl Quantity for DayCash {
    ghost decimals = { day_cash.decimals };

    ghost least = { day_cash.least };

    ghost most = { day_cash.most };

    ghost few_decimals = { Prim.search rules };

    ghost in_words = { Prim.search rules };

    fn decimals() -> u32 {
        0
    }

    fn least() -> i64 {
        -100_000_000_000_000
    }

    fn most() -> i64 {
        100_000_000_000_000
    }
}

/// The day net of an account, in pence (profile). It is the sum of the account's charges and shares of the
/// residuals over a Settlement Day, at most 10^14 in size, and negative if the account is paid.
pub type DayNet = Scaled<DayCash>;

/// The day nets of accounts, in account order.
pub type DayNetTable = ListTable<Account, DayNet>;
