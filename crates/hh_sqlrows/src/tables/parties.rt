//! The parties.

ghost use Rattle.hh_sqlrows.specs.OfficeSchema.{office};
ghost use Rattle.hh_sqlrows.specs.OfficeTables.{parties};
ghost use Rattle.hh_sqlrows.specs.facts.TableFacts.{parties_is};

use hh_names::PartyId;
use hh_rows::PartyRegistration;
use hh_sqltables::{Found, Listed, OfficeTable};

/// The parties.
pub struct Parties;

pub(crate) const CREATION: &str =
    "CREATE TABLE parties (party TEXT NOT NULL, day_from INT NOT NULL, day_to INT NOT NULL, access_key TEXT NOT NULL, PRIMARY KEY (party)) STRICT";

const PUT: &str =
    "INSERT OR REPLACE INTO parties (party, day_from, day_to, access_key) VALUES (?1, ?2, ?3, ?4)";

const ONE: &str =
    "SELECT party, day_from, day_to, access_key FROM parties WHERE party = ?1 ORDER BY party";

const ALL: &str = "SELECT party, day_from, day_to, access_key FROM parties ORDER BY party";

impl OfficeTable for Parties {
    type Key = PartyId;

    type Value = PartyRegistration;

    ghost schema = { office };

    ghost form = { parties };

    #[tactic(auto, using(crate::proofs::StatementFacts::parties_put))]
    fn put() -> &'static str {
        PUT
    }

    ghost is_table = { parties_is };
}

impl Found for Parties {
    #[tactic(auto, using(crate::proofs::StatementFacts::parties_one))]
    fn one() -> &'static str {
        ONE
    }
}

impl Listed for Parties {
    #[tactic(auto, using(crate::proofs::StatementFacts::parties_all))]
    fn all() -> &'static str {
        ALL
    }
}
