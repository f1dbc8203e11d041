//! What accounts have in the Settlement Periods of runs.

ghost use Rattle.std.specs.Ordering.{is_eq};
ghost use Rattle.hh_keyed_rows.specs.Runs.{run_key_cmp};
ghost use Rattle.hh_sqlrows.specs.OfficeSchema.{office};
ghost use Rattle.hh_sqlrows.specs.OfficeTables.{results};
ghost use Rattle.hh_sqlrows.specs.facts.TableFacts.{results_is};

use hh_keyed_rows::{AccountAmounts, ResultKey};
use hh_runs::RunKey;
use hh_sqltables::{Grouped, OfficeTable, Under};

/// What accounts have in the Settlement Periods of runs.
pub struct Results;

pub(crate) const CREATION: &str =
    "CREATE TABLE results (day INT NOT NULL, kind INT NOT NULL, period INT NOT NULL, party TEXT NOT NULL, side INT NOT NULL, credited INT NOT NULL, balancing INT NOT NULL, contracts INT NOT NULL, imbalance INT NOT NULL, charge INT NOT NULL, share INT NOT NULL, PRIMARY KEY (day, kind, period, party, side)) STRICT";

const PUT: &str =
    "INSERT INTO results (day, kind, period, party, side, credited, balancing, contracts, imbalance, charge, share) VALUES (?1, ?2, ?3, ?4, ?5, ?6, ?7, ?8, ?9, ?10, ?11)";

const GROUP: &str = concat!(
    "INSERT INTO results (day, kind, period, party, side, credited, balancing, contracts, imbalance, charge, share) VALUES ",
    "(?, ?, ?, ?, ?, ?, ?, ?, ?, ?, ?), (?, ?, ?, ?, ?, ?, ?, ?, ?, ?, ?), ",
    "(?, ?, ?, ?, ?, ?, ?, ?, ?, ?, ?), (?, ?, ?, ?, ?, ?, ?, ?, ?, ?, ?), ",
    "(?, ?, ?, ?, ?, ?, ?, ?, ?, ?, ?), (?, ?, ?, ?, ?, ?, ?, ?, ?, ?, ?), ",
    "(?, ?, ?, ?, ?, ?, ?, ?, ?, ?, ?), (?, ?, ?, ?, ?, ?, ?, ?, ?, ?, ?)"
);

const UNDER: &str =
    "SELECT day, kind, period, party, side, credited, balancing, contracts, imbalance, charge, share FROM results WHERE day = ?1 AND kind = ?2 ORDER BY day, kind, period, party, side";

impl OfficeTable for Results {
    type Key = ResultKey;

    type Value = AccountAmounts;

    ghost schema = { office };

    ghost form = { results };

    #[tactic(auto, using(crate::proofs::StatementFacts::results_put))]
    fn put() -> &'static str {
        PUT
    }

    ghost is_table = { results_is };
}

impl Grouped for Results {
    #[tactic(auto, using(crate::proofs::StatementFacts::results_group))]
    fn group() -> &'static str {
        GROUP
    }
}

impl Under<RunKey> for Results {
    ghost is_under = { λ run key. is_eq (run_key_cmp key.run run) };

    #[tactic(auto, using(crate::proofs::StatementFacts::results_under))]
    fn under() -> &'static str {
        UNDER
    }
}
