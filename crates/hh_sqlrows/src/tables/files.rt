//! The accepted files.

ghost use Rattle.hh_sqlrows.specs.OfficeSchema.{office};
ghost use Rattle.hh_sqlrows.specs.OfficeTables.{files};
ghost use Rattle.hh_sqlrows.specs.facts.TableFacts.{files_is};

use hh_keyed_rows::{FileKey, KeptFile};
use hh_sqltables::{Found, OfficeTable};

/// The accepted files.
pub struct Files;

pub(crate) const CREATION: &str =
    "CREATE TABLE files (kind TEXT NOT NULL, name TEXT NOT NULL, body BLOB NOT NULL, applied INT NOT NULL, late INT NOT NULL, PRIMARY KEY (kind, name)) STRICT";

const PUT: &str =
    "INSERT OR REPLACE INTO files (kind, name, body, applied, late) VALUES (?1, ?2, ?3, ?4, ?5)";

const ONE: &str =
    "SELECT kind, name, body, applied, late FROM files WHERE kind = ?1 AND name = ?2 ORDER BY kind, name";

impl OfficeTable for Files {
    type Key = FileKey;

    type Value = KeptFile;

    ghost schema = { office };

    ghost form = { files };

    #[tactic(auto, using(crate::proofs::StatementFacts::files_put))]
    fn put() -> &'static str {
        PUT
    }

    ghost is_table = { files_is };
}

impl Found for Files {
    #[tactic(auto, using(crate::proofs::StatementFacts::files_one))]
    fn one() -> &'static str {
        ONE
    }
}
