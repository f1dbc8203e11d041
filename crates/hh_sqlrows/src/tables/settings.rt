//! The settings of the office, in one row.

ghost use Rattle.hh_sqlrows.specs.OfficeSchema.{office};
ghost use Rattle.hh_sqlrows.specs.OfficeTables.{settings};
ghost use Rattle.hh_sqlrows.specs.facts.TableFacts.{settings_is};

use hh_keyed_rows::OneRow;
use hh_rows::Settings;
use hh_sqltables::{Found, OfficeTable};

/// The settings of the office, in one row.
pub struct SettingsTable;

pub(crate) const CREATION: &str =
    "CREATE TABLE settings (id INT NOT NULL, version INT NOT NULL, lead_minutes INT NOT NULL, operator_key TEXT NOT NULL, PRIMARY KEY (id)) STRICT";

const PUT: &str =
    "INSERT INTO settings (id, version, lead_minutes, operator_key) VALUES (?1, ?2, ?3, ?4)";

const ONE: &str =
    "SELECT id, version, lead_minutes, operator_key FROM settings WHERE id = ?1 ORDER BY id";

impl OfficeTable for SettingsTable {
    type Key = OneRow;

    type Value = Settings;

    ghost schema = { office };

    ghost form = { settings };

    #[tactic(auto, using(crate::proofs::StatementFacts::settings_put))]
    fn put() -> &'static str {
        PUT
    }

    ghost is_table = { settings_is };
}

impl Found for SettingsTable {
    #[tactic(auto, using(crate::proofs::StatementFacts::settings_one))]
    fn one() -> &'static str {
        ONE
    }
}
