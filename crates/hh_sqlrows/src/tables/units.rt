//! The BM Units.

ghost use Rattle.hh_sqlrows.specs.OfficeSchema.{office};
ghost use Rattle.hh_sqlrows.specs.OfficeTables.{units};
ghost use Rattle.hh_sqlrows.specs.facts.TableFacts.{units_is};

use hh_names::UnitId;
use hh_rows::UnitRegistration;
use hh_sqltables::{Found, Listed, OfficeTable};

/// The BM Units.
pub struct Units;

pub(crate) const CREATION: &str =
    "CREATE TABLE units (unit TEXT NOT NULL, party TEXT NOT NULL, side INT NOT NULL, interconnector INT NOT NULL, day_from INT NOT NULL, day_to INT NOT NULL, PRIMARY KEY (unit)) STRICT";

const PUT: &str =
    "INSERT INTO units (unit, party, side, interconnector, day_from, day_to) VALUES (?1, ?2, ?3, ?4, ?5, ?6) ON CONFLICT (unit) DO UPDATE SET party = ?2, side = ?3, interconnector = ?4, day_from = ?5, day_to = ?6";

const ONE: &str =
    "SELECT unit, party, side, interconnector, day_from, day_to FROM units WHERE unit = ?1 ORDER BY unit";

const ALL: &str =
    "SELECT unit, party, side, interconnector, day_from, day_to FROM units ORDER BY unit";

impl OfficeTable for Units {
    type Key = UnitId;

    type Value = UnitRegistration;

    ghost schema = { office };

    ghost form = { units };

    #[tactic(auto, using(crate::proofs::StatementFacts::units_put))]
    fn put() -> &'static str {
        PUT
    }

    ghost is_table = { units_is };
}

impl Found for Units {
    #[tactic(auto, using(crate::proofs::StatementFacts::units_one))]
    fn one() -> &'static str {
        ONE
    }
}

impl Listed for Units {
    #[tactic(auto, using(crate::proofs::StatementFacts::units_all))]
    fn all() -> &'static str {
        ALL
    }
}
