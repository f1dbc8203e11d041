//! The energy that accounts are credited with for BM Units in runs.

ghost use Rattle.std.specs.Ordering.{is_eq};
ghost use Rattle.hh_keyed_rows.specs.Runs.{run_key_cmp};
ghost use Rattle.hh_sqlrows.specs.OfficeSchema.{office};
ghost use Rattle.hh_sqlrows.specs.OfficeTables.{credits};
ghost use Rattle.hh_sqlrows.specs.facts.TableFacts.{credits_is};

use hh_keyed_rows::CreditKey;
use hh_num::Ticks;
use hh_runs::RunKey;
use hh_sqltables::{Grouped, OfficeTable, Under};

/// The energy that accounts are credited with for BM Units in runs.
pub struct Credits;

pub(crate) const CREATION: &str =
    "CREATE TABLE credits (day INT NOT NULL, kind INT NOT NULL, period INT NOT NULL, unit TEXT NOT NULL, party TEXT NOT NULL, side INT NOT NULL, credited INT NOT NULL, PRIMARY KEY (day, kind, period, unit, party, side)) STRICT";

const PUT: &str =
    "INSERT INTO credits (day, kind, period, unit, party, side, credited) VALUES (?1, ?2, ?3, ?4, ?5, ?6, ?7)";

const GROUP: &str = concat!(
    "INSERT INTO credits (day, kind, period, unit, party, side, credited) VALUES ",
    "(?, ?, ?, ?, ?, ?, ?), (?, ?, ?, ?, ?, ?, ?), (?, ?, ?, ?, ?, ?, ?), (?, ?, ?, ?, ?, ?, ?), ",
    "(?, ?, ?, ?, ?, ?, ?), (?, ?, ?, ?, ?, ?, ?), (?, ?, ?, ?, ?, ?, ?), (?, ?, ?, ?, ?, ?, ?)"
);

const UNDER: &str =
    "SELECT day, kind, period, unit, party, side, credited FROM credits WHERE day = ?1 AND kind = ?2 ORDER BY day, kind, period, unit, party, side";

impl OfficeTable for Credits {
    type Key = CreditKey;

    type Value = Ticks;

    ghost schema = { office };

    ghost form = { credits };

    #[tactic(auto, using(crate::proofs::StatementFacts::credits_put))]
    fn put() -> &'static str {
        PUT
    }

    ghost is_table = { credits_is };
}

impl Grouped for Credits {
    #[tactic(auto, using(crate::proofs::StatementFacts::credits_group))]
    fn group() -> &'static str {
        GROUP
    }
}

impl Under<RunKey> for Credits {
    ghost is_under = { λ run key. is_eq (run_key_cmp key.run run) };

    #[tactic(auto, using(crate::proofs::StatementFacts::credits_under))]
    fn under() -> &'static str {
        UNDER
    }
}
