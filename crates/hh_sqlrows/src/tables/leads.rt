//! The registrations of the BM Units: which account leads a unit from which date to which.

ghost use Rattle.std.specs.Ordering.{eq_by_cmp};
ghost use Rattle.hh_rows.specs.Keys.{lead_key_cmp};
ghost use Rattle.hh_sqlrows.specs.OfficeSchema.{office};
ghost use Rattle.hh_sqlrows.specs.OfficeTables.{leads};
ghost use Rattle.hh_sqlrows.specs.facts.TableFacts.{leads_is};

use hh_rows::{LeadKey, LeadTerm};
use hh_sqltables::{Listed, OfficeTable, Removed};

/// The registrations of the BM Units.
pub struct Leads;

pub(crate) const CREATION: &str =
    "CREATE TABLE leads (unit TEXT NOT NULL, day_from INT NOT NULL, party TEXT NOT NULL, side INT NOT NULL, day_to INT NOT NULL, PRIMARY KEY (unit, day_from)) STRICT";

const PUT: &str =
    "INSERT OR REPLACE INTO leads (unit, day_from, party, side, day_to) VALUES (?1, ?2, ?3, ?4, ?5)";

const ALL: &str = "SELECT unit, day_from, party, side, day_to FROM leads ORDER BY unit, day_from";

const REMOVAL: &str = "DELETE FROM leads WHERE unit = ?1 AND day_from = ?2";

impl OfficeTable for Leads {
    type Key = LeadKey;

    type Value = LeadTerm;

    ghost schema = { office };

    ghost form = { leads };

    #[tactic(auto, using(crate::proofs::StatementFacts::leads_put))]
    fn put() -> &'static str {
        PUT
    }

    ghost is_table = { leads_is };
}

impl Listed for Leads {
    #[tactic(auto, using(crate::proofs::StatementFacts::leads_all))]
    fn all() -> &'static str {
        ALL
    }
}

impl Removed<LeadKey> for Leads {
    ghost is_removed = { λ asked key. eq_by_cmp lead_key_cmp asked key };

    #[tactic(auto, using(crate::proofs::StatementFacts::leads_removal))]
    fn removal() -> &'static str {
        REMOVAL
    }
}
