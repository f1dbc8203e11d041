//! The metered readings of BM Units.

ghost use Rattle.hh_sqlrows.specs.OfficeSchema.{office};
ghost use Rattle.hh_sqlrows.specs.OfficeTables.{is_of_unit_on, meters};
ghost use Rattle.hh_sqlrows.specs.facts.TableFacts.{meters_is};

use crate::unit_date::UnitDate;
use hh_names::Reading;
use hh_rows::UnitPeriod;
use hh_sqltables::{Grouped, OfficeTable, Under};

/// The metered readings of BM Units.
pub struct Meters;

pub(crate) const CREATION: &str =
    "CREATE TABLE meters (unit TEXT NOT NULL, day INT NOT NULL, period INT NOT NULL, metered INT NOT NULL, tlm INT NOT NULL, balancing INT NOT NULL, PRIMARY KEY (unit, day, period)) STRICT";

const PUT: &str =
    "INSERT OR REPLACE INTO meters (unit, day, period, metered, tlm, balancing) VALUES (?1, ?2, ?3, ?4, ?5, ?6)";

const GROUP: &str = concat!(
    "INSERT INTO meters (unit, day, period, metered, tlm, balancing) VALUES ",
    "(?, ?, ?, ?, ?, ?), (?, ?, ?, ?, ?, ?), (?, ?, ?, ?, ?, ?), (?, ?, ?, ?, ?, ?), ",
    "(?, ?, ?, ?, ?, ?), (?, ?, ?, ?, ?, ?), (?, ?, ?, ?, ?, ?), (?, ?, ?, ?, ?, ?)"
);

const UNDER: &str =
    "SELECT unit, day, period, metered, tlm, balancing FROM meters WHERE unit = ?1 AND day = ?2 ORDER BY unit, day, period";

impl OfficeTable for Meters {
    type Key = UnitPeriod;

    type Value = Reading;

    ghost schema = { office };

    ghost form = { meters };

    #[tactic(auto, using(crate::proofs::StatementFacts::meters_put))]
    fn put() -> &'static str {
        PUT
    }

    ghost is_table = { meters_is };
}

impl Grouped for Meters {
    #[tactic(auto, using(crate::proofs::StatementFacts::meters_group))]
    fn group() -> &'static str {
        GROUP
    }
}

impl Under<UnitDate> for Meters {
    ghost is_under = { λ asked key. is_of_unit_on asked.unit asked.date key };

    #[tactic(auto, using(crate::proofs::StatementFacts::meters_under))]
    fn under() -> &'static str {
        UNDER
    }
}
