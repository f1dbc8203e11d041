//! The prices of Settlement Periods.

ghost use Rattle.std.specs.Ordering.{is_eq, nat_cmp};
ghost use Rattle.hh_sqlrows.specs.OfficeSchema.{office};
ghost use Rattle.hh_sqlrows.specs.OfficeTables.{period_prices};
ghost use Rattle.hh_sqlrows.specs.facts.TableFacts.{period_prices_is};

use hh_num::Price;
use hh_rows::SettlementPeriod;
use hh_sqltables::{OfficeTable, Under};
use hh_time::SettlementDate;

/// The prices of Settlement Periods.
pub struct Prices;

pub(crate) const CREATION: &str =
    "CREATE TABLE prices (day INT NOT NULL, period INT NOT NULL, price INT NOT NULL, PRIMARY KEY (day, period)) STRICT";

const PUT: &str = "INSERT OR REPLACE INTO prices (day, period, price) VALUES (?1, ?2, ?3)";

const UNDER: &str = "SELECT day, period, price FROM prices WHERE day = ?1 ORDER BY day, period";

impl OfficeTable for Prices {
    type Key = SettlementPeriod;

    type Value = Price;

    ghost schema = { office };

    ghost form = { period_prices };

    #[tactic(auto, using(crate::proofs::StatementFacts::period_prices_put))]
    fn put() -> &'static str {
        PUT
    }

    ghost is_table = { period_prices_is };
}

impl Under<SettlementDate> for Prices {
    ghost is_under = { λ date key. is_eq (nat_cmp key.date date) };

    #[tactic(auto, using(crate::proofs::StatementFacts::period_prices_under))]
    fn under() -> &'static str {
        UNDER
    }
}
