//! The Settlement Periods that were touched since they were settled.

ghost use Rattle.std.specs.Prelude.{◌==◌};
ghost use Rattle.std.specs.Ordering.{is_eq, nat_cmp};
ghost use Rattle.hh_sqlrows.specs.OfficeSchema.{office};
ghost use Rattle.hh_sqlrows.specs.OfficeTables.{touched};
ghost use Rattle.hh_sqlrows.specs.facts.TableFacts.{touched_is};

use hh_keyed_rows::NoColumns;
use hh_rows::SettlementPeriod;
use hh_sqltables::{Listed, OfficeTable, Removed, Under};
use hh_time::SettlementDate;

/// The Settlement Periods that were touched since they were settled.
pub struct Touched;

pub(crate) const CREATION: &str =
    "CREATE TABLE touched (day INT NOT NULL, period INT NOT NULL, PRIMARY KEY (day, period)) STRICT";

const PUT: &str = "INSERT OR REPLACE INTO touched (day, period) VALUES (?1, ?2)";

const ALL: &str = "SELECT day, period FROM touched ORDER BY day, period";

const UNDER: &str = "SELECT day, period FROM touched WHERE day = ?1 ORDER BY day, period";

const REMOVAL: &str = "DELETE FROM touched WHERE day = ?1";

impl OfficeTable for Touched {
    type Key = SettlementPeriod;

    type Value = NoColumns;

    ghost schema = { office };

    ghost form = { touched };

    #[tactic(auto, using(crate::proofs::StatementFacts::touched_put))]
    fn put() -> &'static str {
        PUT
    }

    ghost is_table = { touched_is };
}

impl Listed for Touched {
    #[tactic(auto, using(crate::proofs::StatementFacts::touched_all))]
    fn all() -> &'static str {
        ALL
    }
}

impl Under<SettlementDate> for Touched {
    ghost is_under = { λ date key. is_eq (nat_cmp key.date date) };

    #[tactic(auto, using(crate::proofs::StatementFacts::touched_under))]
    fn under() -> &'static str {
        UNDER
    }
}

impl Removed<SettlementDate> for Touched {
    ghost is_removed = { λ date key. key.date == date };

    #[tactic(auto, using(crate::proofs::StatementFacts::touched_removal))]
    fn removal() -> &'static str {
        REMOVAL
    }
}
