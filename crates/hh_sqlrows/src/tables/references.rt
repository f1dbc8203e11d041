//! The sellers and the buyers of references.

ghost use Rattle.hh_sqlrows.specs.OfficeSchema.{office};
ghost use Rattle.hh_sqlrows.specs.OfficeTables.{references};
ghost use Rattle.hh_sqlrows.specs.facts.TableFacts.{references_is};

use hh_names::{Counterparties, Reference};
use hh_sqltables::{Found, Listed, OfficeTable};

/// The sellers and the buyers of references.
pub struct References;

pub(crate) const CREATION: &str =
    "CREATE TABLE refs (reference TEXT NOT NULL, seller TEXT NOT NULL, seller_side INT NOT NULL, buyer TEXT NOT NULL, buyer_side INT NOT NULL, PRIMARY KEY (reference)) STRICT";

const PUT: &str =
    "INSERT OR REPLACE INTO refs (reference, seller, seller_side, buyer, buyer_side) VALUES (?1, ?2, ?3, ?4, ?5)";

const ONE: &str =
    "SELECT reference, seller, seller_side, buyer, buyer_side FROM refs WHERE reference = ?1 ORDER BY reference";

const ALL: &str =
    "SELECT reference, seller, seller_side, buyer, buyer_side FROM refs ORDER BY reference";

impl OfficeTable for References {
    type Key = Reference;

    type Value = Counterparties;

    ghost schema = { office };

    ghost form = { references };

    #[tactic(auto, using(crate::proofs::StatementFacts::references_put))]
    fn put() -> &'static str {
        PUT
    }

    ghost is_table = { references_is };
}

impl Found for References {
    #[tactic(auto, using(crate::proofs::StatementFacts::references_one))]
    fn one() -> &'static str {
        ONE
    }
}

impl Listed for References {
    #[tactic(auto, using(crate::proofs::StatementFacts::references_all))]
    fn all() -> &'static str {
        ALL
    }
}
