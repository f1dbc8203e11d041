//! The volumes of contracts.

ghost use Rattle.std.specs.Ordering.{is_eq, nat_cmp};
ghost use Rattle.hh_sqlrows.specs.OfficeSchema.{office};
ghost use Rattle.hh_sqlrows.specs.OfficeTables.{contracts};
ghost use Rattle.hh_sqlrows.specs.facts.TableFacts.{contracts_is};

use hh_num::Kwh;
use hh_rows::ContractKey;
use hh_sqltables::{Found, Grouped, Listed, OfficeTable, Under};
use hh_time::SettlementDate;

/// The volumes of contracts.
pub struct Contracts;

pub(crate) const CREATION: &str =
    "CREATE TABLE contracts (reference TEXT NOT NULL, day INT NOT NULL, period INT NOT NULL, kwh INT NOT NULL, PRIMARY KEY (reference, day, period)) STRICT";

const PUT: &str =
    "INSERT OR REPLACE INTO contracts (reference, day, period, kwh) VALUES (?1, ?2, ?3, ?4)";

const GROUP: &str = concat!(
    "INSERT INTO contracts (reference, day, period, kwh) VALUES ",
    "(?, ?, ?, ?), (?, ?, ?, ?), (?, ?, ?, ?), (?, ?, ?, ?), ",
    "(?, ?, ?, ?), (?, ?, ?, ?), (?, ?, ?, ?), (?, ?, ?, ?)"
);

const ONE: &str =
    "SELECT reference, day, period, kwh FROM contracts WHERE reference = ?1 AND day = ?2 AND period = ?3 ORDER BY reference, day, period";

const ALL: &str =
    "SELECT reference, day, period, kwh FROM contracts ORDER BY reference, day, period";

const UNDER: &str =
    "SELECT reference, day, period, kwh FROM contracts WHERE day = ?1 ORDER BY reference, day, period";

impl OfficeTable for Contracts {
    type Key = ContractKey;

    type Value = Kwh;

    ghost schema = { office };

    ghost form = { contracts };

    #[tactic(auto, using(crate::proofs::StatementFacts::contracts_put))]
    fn put() -> &'static str {
        PUT
    }

    ghost is_table = { contracts_is };
}

impl Grouped for Contracts {
    #[tactic(auto, using(crate::proofs::StatementFacts::contracts_group))]
    fn group() -> &'static str {
        GROUP
    }
}

impl Found for Contracts {
    #[tactic(auto, using(crate::proofs::StatementFacts::contracts_one))]
    fn one() -> &'static str {
        ONE
    }
}

impl Listed for Contracts {
    #[tactic(auto, using(crate::proofs::StatementFacts::contracts_all))]
    fn all() -> &'static str {
        ALL
    }
}

impl Under<SettlementDate> for Contracts {
    ghost is_under = { λ date key. is_eq (nat_cmp key.at.date date) };

    #[tactic(auto, using(crate::proofs::StatementFacts::contracts_under))]
    fn under() -> &'static str {
        UNDER
    }
}
