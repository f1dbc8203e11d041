//! The postings of runs.

ghost use Rattle.hh_sqlrows.specs.OfficeSchema.{office};
ghost use Rattle.hh_sqlrows.specs.OfficeTables.{postings};
ghost use Rattle.hh_sqlrows.specs.facts.TableFacts.{postings_is};

use hh_keyed_rows::PostingKey;
use hh_num::Pence;
use hh_sqltables::{Listed, OfficeTable};

/// The postings of runs.
pub struct Postings;

pub(crate) const CREATION: &str =
    "CREATE TABLE postings (day INT NOT NULL, kind INT NOT NULL, party TEXT NOT NULL, side INT NOT NULL, pence INT NOT NULL, PRIMARY KEY (day, kind, party, side)) STRICT";

const PUT: &str =
    "INSERT INTO postings (day, kind, party, side, pence) VALUES (?1, ?2, ?3, ?4, ?5)";

const ALL: &str =
    "SELECT day, kind, party, side, pence FROM postings ORDER BY day, kind, party, side";

impl OfficeTable for Postings {
    type Key = PostingKey;

    type Value = Pence;

    ghost schema = { office };

    ghost form = { postings };

    #[tactic(auto, using(crate::proofs::StatementFacts::postings_put))]
    fn put() -> &'static str {
        PUT
    }

    ghost is_table = { postings_is };
}

impl Listed for Postings {
    #[tactic(auto, using(crate::proofs::StatementFacts::postings_all))]
    fn all() -> &'static str {
        ALL
    }
}
