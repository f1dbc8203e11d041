//! The reallocations of the credited energy of BM Units.

ghost use Rattle.std.specs.Ordering.{is_eq};
ghost use Rattle.hh_names.specs.Accounts.{bytes_cmp};
ghost use Rattle.hh_sqlrows.specs.OfficeSchema.{office};
ghost use Rattle.hh_sqlrows.specs.OfficeTables.{reallocations};
ghost use Rattle.hh_sqlrows.specs.facts.TableFacts.{reallocations_is};

use hh_names::{Reallocation, UnitId};
use hh_rows::ReallocationKey;
use hh_sqltables::{OfficeTable, Under};

/// The reallocations of the credited energy of BM Units.
pub struct Reallocations;

pub(crate) const CREATION: &str =
    "CREATE TABLE reallocations (unit TEXT NOT NULL, party TEXT NOT NULL, side INT NOT NULL, day INT NOT NULL, period INT NOT NULL, percent INT NOT NULL, fixed INT NOT NULL, PRIMARY KEY (unit, party, side, day, period)) STRICT";

const PUT: &str =
    "INSERT OR REPLACE INTO reallocations (unit, party, side, day, period, percent, fixed) VALUES (?1, ?2, ?3, ?4, ?5, ?6, ?7)";

const UNDER: &str =
    "SELECT unit, party, side, day, period, percent, fixed FROM reallocations WHERE unit = ?1 ORDER BY unit, day, period, party, side";

impl OfficeTable for Reallocations {
    type Key = ReallocationKey;

    type Value = Reallocation;

    ghost schema = { office };

    ghost form = { reallocations };

    #[tactic(auto, using(crate::proofs::StatementFacts::reallocations_put))]
    fn put() -> &'static str {
        PUT
    }

    ghost is_table = { reallocations_is };
}

impl Under<UnitId> for Reallocations {
    ghost is_under = { λ unit key. is_eq (bytes_cmp key.unit_period.unit unit) };

    #[tactic(auto, using(crate::proofs::StatementFacts::reallocations_under))]
    fn under() -> &'static str {
        UNDER
    }
}
