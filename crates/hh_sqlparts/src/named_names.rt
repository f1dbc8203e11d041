//! What rows name, and by which the rows of the tables are selected.

ghost use Rattle.std.specs.Prelude.{◌≡◌, All, IfOk, Option};
ghost use Rattle.hh_rows.specs.declared.rows.Row.{Row};
ghost use Rattle.hh_sqlparts.specs.steps.Named.{IsAmong, date_of, reference_of, unit_day_of, unit_of, volume_key_of};

use hh_names::{Reference, UnitId};
use hh_rows::{ContractKey, Row};
use hh_sqlrows::UnitDate;
use hh_time::SettlementDate;
use std::alloc::{AllocError, Global};
use std::collections::BTreeSet;

/// Something that a row can name.
pub(crate) trait Name: Ord + Copy {
    /// What a row names, if it names anything of this kind.
    ghost name_of: { Row → Option Self };

    /// What a row names, if it names anything of this kind.
    fn of_row(row: &Row) -> Option<Self>
        ensures { result ≡ name_of row.now };
}

/// The reference of a contract row.
impl Name for Reference {
    ghost name_of = { reference_of };

    fn of_row(row: &Row) -> Option<Reference> {
        match row {
            Row::Contract(row) => Some(row.key.reference),
            _ => None,
        }
    }
}

/// The key of a contract row.
impl Name for ContractKey {
    ghost name_of = { volume_key_of };

    fn of_row(row: &Row) -> Option<ContractKey> {
        match row {
            Row::Contract(row) => Some(row.key),
            _ => None,
        }
    }
}

/// The unit and the date of a reading.
impl Name for UnitDate {
    ghost name_of = { unit_day_of };

    fn of_row(row: &Row) -> Option<UnitDate> {
        match row {
            Row::Meter(row) => Some(UnitDate {
                unit: row.key.unit,
                date: row.key.at.date,
            }),
            _ => None,
        }
    }
}

/// The date of a price.
impl Name for SettlementDate {
    ghost name_of = { date_of };

    fn of_row(row: &Row) -> Option<SettlementDate> {
        match row {
            Row::Price(row) => Some(row.at.date),
            _ => None,
        }
    }
}

/// The unit whose reallocations a row is judged by.
impl Name for UnitId {
    ghost name_of = { unit_of };

    fn of_row(row: &Row) -> Option<UnitId> {
        match row {
            Row::Reallocation(row) => Some(row.key.unit_period.unit),
            Row::Unit(row) => Some(row.unit),
            _ => None,
        }
    }
}

/// What rows name, each once.
pub(crate) fn names_in<N: Name>(alloc: Global, rows: &[Row]) -> Result<Vec<N>, AllocError>
    ensures { IfOk result (λ names. All (IsAmong N.cmp N.name_of names.items) rows.now) }
{
    let mut names = BTreeSet::new(alloc);
    for row in rows {
        if let Some(name) = N::of_row(row) {
            names.insert(name)?;
        }
    }
    names_of(alloc, names)
}

/// The names of a set.
pub(crate) fn names_of<N: Ord + Copy>(
    alloc: Global,
    names: BTreeSet<N>,
) -> Result<Vec<N>, AllocError>
    ensures { IfOk result (λ list. list.items ≡ names.keys) }
{
    names.into_iter().collect(alloc)
}
