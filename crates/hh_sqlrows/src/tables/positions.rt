//! The positions of accounts in Settlement Periods.

ghost use Rattle.std.specs.Ordering.{is_eq, nat_cmp};
ghost use Rattle.hh_sqlrows.specs.OfficeSchema.{office};
ghost use Rattle.hh_sqlrows.specs.OfficeTables.{positions};
ghost use Rattle.hh_sqlrows.specs.facts.TableFacts.{positions_is};

use hh_keyed_rows::{Position, PositionKey};
use hh_sqltables::{Found, Listed, OfficeTable, Under};
use hh_time::SettlementDate;

/// The positions of accounts in Settlement Periods.
pub struct Positions;

pub(crate) const CREATION: &str =
    "CREATE TABLE positions (day INT NOT NULL, period INT NOT NULL, party TEXT NOT NULL, side INT NOT NULL, kwh INT NOT NULL, lost INT NOT NULL, PRIMARY KEY (day, period, party, side)) STRICT";

const PUT: &str =
    "INSERT OR REPLACE INTO positions (day, period, party, side, kwh, lost) VALUES (?1, ?2, ?3, ?4, ?5, ?6)";

const ONE: &str =
    "SELECT day, period, party, side, kwh, lost FROM positions WHERE day = ?1 AND period = ?2 AND party = ?3 AND side = ?4 ORDER BY day, period, party, side";

const ALL: &str =
    "SELECT day, period, party, side, kwh, lost FROM positions ORDER BY day, period, party, side";

const UNDER: &str =
    "SELECT day, period, party, side, kwh, lost FROM positions WHERE day = ?1 ORDER BY day, period, party, side";

impl OfficeTable for Positions {
    type Key = PositionKey;

    type Value = Position;

    ghost schema = { office };

    ghost form = { positions };

    #[tactic(auto, using(crate::proofs::StatementFacts::positions_put))]
    fn put() -> &'static str {
        PUT
    }

    ghost is_table = { positions_is };
}

impl Found for Positions {
    #[tactic(auto, using(crate::proofs::StatementFacts::positions_one))]
    fn one() -> &'static str {
        ONE
    }
}

impl Listed for Positions {
    #[tactic(auto, using(crate::proofs::StatementFacts::positions_all))]
    fn all() -> &'static str {
        ALL
    }
}

impl Under<SettlementDate> for Positions {
    ghost is_under = { λ date key. is_eq (nat_cmp key.at.date date) };

    #[tactic(auto, using(crate::proofs::StatementFacts::positions_under))]
    fn under() -> &'static str {
        UNDER
    }
}
