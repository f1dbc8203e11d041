//! The tables of version 1 that a step reads, and the texts by which it makes those of version 2.

ghost use Rattle.hh_sqlrows.specs.Holds.{settings_of};
ghost use Rattle.hh_sqlrows.specs.OfficeSchema.{office, office_of_one};
ghost use Rattle.hh_sqlrows.specs.OfficeTables.{settings, units};
ghost use Rattle.hh_sqlrows.specs.facts.TableFacts.{settings_is};
ghost use Rattle.hh_sqlmigration.specs.steps.Facts.{settings_of_one_is, units_of_one_is};

use hh_keyed_rows::{NumberedSettings, OneRow};
use hh_names::UnitId;
use hh_rows::{Settings, UnitRegistration};
use hh_sqltables::{Found, Listed, OfficeTable};

/// The text that makes the table of leads.
pub(crate) const LEADS: &str =
    "CREATE TABLE leads (unit TEXT NOT NULL, day_from INT NOT NULL, party TEXT NOT NULL, side INT NOT NULL, day_to INT NOT NULL, PRIMARY KEY (unit, day_from)) STRICT";

const PUT_UNIT: &str =
    "INSERT INTO units (unit, party, side, interconnector, day_from, day_to) VALUES (?1, ?2, ?3, ?4, ?5, ?6)";

const ALL_UNITS: &str =
    "SELECT unit, party, side, interconnector, day_from, day_to FROM units ORDER BY unit";

const PUT_SETTINGS: &str =
    "INSERT OR REPLACE INTO settings (id, version, lead_minutes, operator_key) VALUES (?1, ?2, ?3, ?4)";

const SETTINGS: &str =
    "SELECT id, version, lead_minutes, operator_key FROM settings WHERE id = ?1 ORDER BY id";

/// The BM Units, in a database of version 1.
pub(crate) struct UnitsOfOne;

impl OfficeTable for UnitsOfOne {
    type Key = UnitId;

    type Value = UnitRegistration;

    ghost schema = { office_of_one };

    ghost form = { units };

    #[tactic(auto, using(crate::proofs::StatementFacts::units_of_one_put))]
    fn put() -> &'static str {
        PUT_UNIT
    }

    ghost is_table = { units_of_one_is };
}

impl Listed for UnitsOfOne {
    #[tactic(auto, using(crate::proofs::StatementFacts::units_of_one_all))]
    fn all() -> &'static str {
        ALL_UNITS
    }
}

/// The settings, whose row names version 1.
pub(crate) struct SettingsOfOne;

impl OfficeTable for SettingsOfOne {
    type Key = OneRow;

    type Value = NumberedSettings<1>;

    ghost schema = { office_of_one };

    ghost form = { settings_of 1 };

    #[tactic(auto, using(crate::proofs::StatementFacts::settings_of_one_put))]
    fn put() -> &'static str {
        PUT_SETTINGS
    }

    ghost is_table = { settings_of_one_is };
}

impl Found for SettingsOfOne {
    #[tactic(auto, using(crate::proofs::StatementFacts::settings_of_one_one))]
    fn one() -> &'static str {
        SETTINGS
    }
}

/// The settings, whose row names version 2. It takes the place of the row of version 1.
pub(crate) struct SettingsOfTwo;

impl OfficeTable for SettingsOfTwo {
    type Key = OneRow;

    type Value = Settings;

    ghost schema = { office };

    ghost form = { settings };

    #[tactic(auto, using(crate::proofs::StatementFacts::settings_of_two_put))]
    fn put() -> &'static str {
        PUT_SETTINGS
    }

    ghost is_table = { settings_is };
}
