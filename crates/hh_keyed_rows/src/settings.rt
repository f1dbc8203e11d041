//! The settings as columns, of which the first names a version of the tables.

ghost use Rattle.std.specs.Prelude.{◌≡◌, ◌++◌, true, IfErr, IfOk, OnOk, None, Some};
ghost use Rattle.sqlite.specs.Values.{bound};
ghost use Rattle.hh_keyed_rows.specs.Values.{settings_columns, settings_columns_of};
ghost use Rattle.hh_keyed_rows.specs.declared.row_fault.RowFault.TheVariants.{Store};

use crate::columned::Columned;
use crate::columns::{Columns, push_column};
use crate::row_fault::RowFault;
use hh_names::OperatorKey;
use hh_rows::{LeadMinutes, Settings};
use sqlite::types::ValueRef;
use std::alloc::AllocError;
use std::marker::Model;

/// The present version of the tables.
const VERSION: u8 = 2;

impl Columned for Settings {
    ghost codec = { settings_columns };

    fn to_columns<'a>(&'a self, columns: &mut Vec<ValueRef<'a>>) -> Result<(), AllocError> {
        push_settings(columns, VERSION, self)
    }

    fn from_columns(columns: &mut Columns<'_>) -> Result<Settings, RowFault> {
        next_settings(columns, VERSION)
    }
}

/// Settings in the tables of the version with this number.
#[derive(Drop)]
pub struct NumberedSettings<const NUMBER: u8> {
    settings: Settings,
}

impl<const NUMBER: u8> Model for NumberedSettings<NUMBER> {
    ghost use Rattle.hh_rows.specs.declared.settings.Settings.{Settings};

    ghost Value = { Settings };

    ghost view = { λ s. s.settings };
}

impl<const NUMBER: u8> NumberedSettings<NUMBER> {
    /// The settings without the number of the version.
    pub fn settings(&self) -> Settings
        ensures { result ≡ self.now }
    {
        self.settings
    }
}

impl<const NUMBER: u8> Columned for NumberedSettings<NUMBER> {
    ghost codec = { settings_columns_of NUMBER };

    fn to_columns<'a>(&'a self, columns: &mut Vec<ValueRef<'a>>) -> Result<(), AllocError> {
        push_settings(columns, NUMBER, &self.settings)
    }

    fn from_columns(columns: &mut Columns<'_>) -> Result<NumberedSettings<NUMBER>, RowFault> {
        let settings = next_settings(columns, NUMBER)?;
        Ok(NumberedSettings { settings })
    }
}

/// Appends the columns of settings in tables of a version.
fn push_settings<'a>(
    columns: &mut Vec<ValueRef<'a>>,
    number: u8,
    settings: &'a Settings,
) -> Result<(), AllocError>
    ensures written { OnOk result (bound columns.new.items
        ≡ bound columns.old.items ++ (settings_columns_of number).write settings.now) }
    ensures fits { OnOk result ((settings_columns_of number).fits settings.now ≡ true) }
{
    push_column(columns, ValueRef::Int(i64::from(number)))?;
    settings.lead_minutes.to_columns(columns)?;
    settings.operator_key.to_columns(columns)
}

/// Reads the settings in tables of a version. `Store` if the number is another one.
fn next_settings(columns: &mut Columns<'_>, number: u8) -> Result<Settings, RowFault>
    ensures ok { IfOk result (λ value.
        (settings_columns_of number).read columns.old ≡ Some (value, columns.new)) }
    ensures err { IfErr result (λ fault.
        fault ≡ Store → (settings_columns_of number).read columns.old ≡ None) }
{
    if columns.next_natural()? != u64::from(number) {
        return Err(RowFault::Store);
    }
    let lead_minutes = LeadMinutes::from_columns(columns)?;
    let operator_key = OperatorKey::from_columns(columns)?;
    Ok(Settings {
        lead_minutes,
        operator_key,
    })
}
