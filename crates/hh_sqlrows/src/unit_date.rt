//! A BM Unit and a date, by which readings are asked for.

ghost use Rattle.hh_sqlrows.specs.UnitDates.{unit_date_columns};

use hh_keyed_rows::{Columned, Columns, RowFault};
use hh_names::UnitId;
use hh_time::SettlementDate;
use sqlite::types::ValueRef;
use std::alloc::AllocError;

/// A BM Unit and a date. Ordered by the bytes of the unit's id, then by date.
#[derive(Clone, Copy, Debug, PartialEq, Eq, PartialOrd, Ord)]
pub struct UnitDate {
    pub unit: UnitId,
    pub date: SettlementDate,
}

impl Columned for UnitDate {
    ghost codec = { unit_date_columns };

    fn to_columns<'a>(&'a self, columns: &mut Vec<ValueRef<'a>>) -> Result<(), AllocError> {
        self.unit.to_columns(columns)?;
        self.date.to_columns(columns)
    }

    fn from_columns(columns: &mut Columns<'_>) -> Result<UnitDate, RowFault> {
        let unit = UnitId::from_columns(columns)?;
        let date = SettlementDate::from_columns(columns)?;
        Ok(UnitDate { unit, date })
    }
}
