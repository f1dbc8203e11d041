//! Whether positions are kept, in one row.

ghost use Rattle.hh_sqlrows.specs.OfficeSchema.{office};
ghost use Rattle.hh_sqlrows.specs.OfficeTables.{marks};
ghost use Rattle.hh_sqlrows.specs.facts.TableFacts.{marks_is};

use hh_keyed_rows::OneRow;
use hh_sqltables::{Found, OfficeTable};

/// Whether positions are kept, in one row.
pub struct Marks;

pub(crate) const CREATION: &str =
    "CREATE TABLE marks (id INT NOT NULL, positions INT NOT NULL, PRIMARY KEY (id)) STRICT";

const PUT: &str = "INSERT OR REPLACE INTO marks (id, positions) VALUES (?1, ?2)";

const ONE: &str = "SELECT id, positions FROM marks WHERE id = ?1 ORDER BY id";

impl OfficeTable for Marks {
    type Key = OneRow;

    type Value = bool;

    ghost schema = { office };

    ghost form = { marks };

    #[tactic(auto, using(crate::proofs::StatementFacts::marks_put))]
    fn put() -> &'static str {
        PUT
    }

    ghost is_table = { marks_is };
}

impl Found for Marks {
    #[tactic(auto, using(crate::proofs::StatementFacts::marks_one))]
    fn one() -> &'static str {
        ONE
    }
}
