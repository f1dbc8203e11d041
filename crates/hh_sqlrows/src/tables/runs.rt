//! The runs with their summaries.

ghost use Rattle.std.specs.Ordering.{is_eq, nat_cmp};
ghost use Rattle.hh_sqlrows.specs.OfficeSchema.{office};
ghost use Rattle.hh_sqlrows.specs.OfficeTables.{runs};
ghost use Rattle.hh_sqlrows.specs.facts.TableFacts.{runs_is};

use hh_runs::{RunKey, Summary};
use hh_sqltables::{Listed, OfficeTable, Under};
use hh_time::SettlementDate;

/// The runs with their summaries.
pub struct Runs;

pub(crate) const CREATION: &str =
    "CREATE TABLE runs (day INT NOT NULL, kind INT NOT NULL, periods INT NOT NULL, accounts INT NOT NULL, residual INT NOT NULL, postings INT NOT NULL, PRIMARY KEY (day, kind)) STRICT";

const PUT: &str =
    "INSERT INTO runs (day, kind, periods, accounts, residual, postings) VALUES (?1, ?2, ?3, ?4, ?5, ?6)";

const ALL: &str =
    "SELECT day, kind, periods, accounts, residual, postings FROM runs ORDER BY day, kind";

const UNDER: &str =
    "SELECT day, kind, periods, accounts, residual, postings FROM runs WHERE day = ?1 ORDER BY day, kind";

impl OfficeTable for Runs {
    type Key = RunKey;

    type Value = Summary;

    ghost schema = { office };

    ghost form = { runs };

    #[tactic(auto, using(crate::proofs::StatementFacts::runs_put))]
    fn put() -> &'static str {
        PUT
    }

    ghost is_table = { runs_is };
}

impl Listed for Runs {
    #[tactic(auto, using(crate::proofs::StatementFacts::runs_all))]
    fn all() -> &'static str {
        ALL
    }
}

impl Under<SettlementDate> for Runs {
    ghost is_under = { λ date key. is_eq (nat_cmp key.date date) };

    #[tactic(auto, using(crate::proofs::StatementFacts::runs_under))]
    fn under() -> &'static str {
        UNDER
    }
}
