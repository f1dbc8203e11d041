//! Single values as columns.

ghost use Rattle.std.specs.Prelude.{◌≡◌};
ghost use Rattle.hh_keyed_rows.specs.Fields.{date_column, file_kind_column, lead_minutes_column, mark_column, number_column, operator_key_column, period_column, run_kind_column, side_column, units_column, word_column};
ghost use Rattle.hh_keyed_rows.specs.Values.{most_of_8_bits, most_of_16_bits, most_of_32_bits};

use crate::columned::Columned;
use crate::columns::{Columns, push_column};
use crate::row_fault::RowFault;
use hh_names::{Alphabet, OperatorKey, PeriodNumber, Side, Word};
use hh_num::{Quantity, Scaled};
use hh_rows::{FileKind, LeadMinutes};
use hh_runs::RunKind;
use hh_time::SettlementDate;
use sqlite::types::ValueRef;
use std::alloc::AllocError;

impl Columned for SettlementDate {
    ghost codec = { date_column };

    fn to_columns<'a>(&'a self, columns: &mut Vec<ValueRef<'a>>) -> Result<(), AllocError> {
        push_column(columns, ValueRef::Int(i64::from(self.number())))
    }

    fn from_columns(columns: &mut Columns<'_>) -> Result<SettlementDate, RowFault> {
        match u16::try_from(columns.next_natural()?) {
            Ok(days) => SettlementDate::new(days).ok_or(RowFault::Store),
            Err(_) => Err(RowFault::Store),
        }
    }
}

impl Columned for PeriodNumber {
    ghost codec = { period_column };

    fn to_columns<'a>(&'a self, columns: &mut Vec<ValueRef<'a>>) -> Result<(), AllocError> {
        push_column(columns, ValueRef::Int(i64::from(self.number())))
    }

    fn from_columns(columns: &mut Columns<'_>) -> Result<PeriodNumber, RowFault> {
        match u8::try_from(columns.next_natural()?) {
            Ok(number) => PeriodNumber::new(number).ok_or(RowFault::Store),
            Err(_) => Err(RowFault::Store),
        }
    }
}

impl<Q: Quantity + Copy> Columned for Scaled<Q> {
    ghost codec = { units_column Q.least Q.most };

    fn to_columns<'a>(&'a self, columns: &mut Vec<ValueRef<'a>>) -> Result<(), AllocError> {
        push_column(columns, ValueRef::Int(self.units()))
    }

    fn from_columns(columns: &mut Columns<'_>) -> Result<Scaled<Q>, RowFault> {
        Scaled::new(columns.next_integer()?).ok_or(RowFault::Store)
    }
}

impl<A: Alphabet, const LEAST: usize, const MOST: usize> Columned for Word<A, LEAST, MOST> {
    ghost codec = { word_column A.allows LEAST MOST };

    fn to_columns<'a>(&'a self, columns: &mut Vec<ValueRef<'a>>) -> Result<(), AllocError> {
        push_column(columns, ValueRef::Text(self.as_bytes()))
    }

    fn from_columns(columns: &mut Columns<'_>) -> Result<Word<A, LEAST, MOST>, RowFault> {
        Word::read(columns.next_text()?).ok_or(RowFault::Store)
    }
}

impl Columned for OperatorKey {
    ghost codec = { operator_key_column };

    fn to_columns<'a>(&'a self, columns: &mut Vec<ValueRef<'a>>) -> Result<(), AllocError> {
        push_column(columns, ValueRef::Text(self.as_bytes()))
    }

    fn from_columns(columns: &mut Columns<'_>) -> Result<OperatorKey, RowFault> {
        OperatorKey::read(columns.next_text()?).ok_or(RowFault::Store)
    }
}

impl Columned for Side {
    ghost codec = { side_column };

    fn to_columns<'a>(&'a self, columns: &mut Vec<ValueRef<'a>>) -> Result<(), AllocError> {
        let number = match self {
            Side::Production => 0,
            Side::Consumption => 1,
        };
        push_column(columns, ValueRef::Int(number))
    }

    fn from_columns(columns: &mut Columns<'_>) -> Result<Side, RowFault> {
        match columns.next_natural()? {
            0 => Ok(Side::Production),
            1 => Ok(Side::Consumption),
            _ => Err(RowFault::Store),
        }
    }
}

impl Columned for bool {
    ghost codec = { mark_column };

    fn to_columns<'a>(&'a self, columns: &mut Vec<ValueRef<'a>>) -> Result<(), AllocError> {
        push_column(columns, ValueRef::Int(if *self { 1 } else { 0 }))
    }

    fn from_columns(columns: &mut Columns<'_>) -> Result<bool, RowFault> {
        match columns.next_natural()? {
            0 => Ok(false),
            1 => Ok(true),
            _ => Err(RowFault::Store),
        }
    }
}

impl Columned for u8 {
    ghost codec = { number_column most_of_8_bits };

    fn to_columns<'a>(&'a self, columns: &mut Vec<ValueRef<'a>>) -> Result<(), AllocError> {
        push_column(columns, ValueRef::Int(i64::from(*self)))
    }

    fn from_columns(columns: &mut Columns<'_>) -> Result<u8, RowFault> {
        u8::try_from(columns.next_natural()?).map_err(|_| RowFault::Store)
    }
}

impl Columned for u16 {
    ghost codec = { number_column most_of_16_bits };

    fn to_columns<'a>(&'a self, columns: &mut Vec<ValueRef<'a>>) -> Result<(), AllocError> {
        push_column(columns, ValueRef::Int(i64::from(*self)))
    }

    fn from_columns(columns: &mut Columns<'_>) -> Result<u16, RowFault> {
        u16::try_from(columns.next_natural()?).map_err(|_| RowFault::Store)
    }
}

impl Columned for u32 {
    ghost codec = { number_column most_of_32_bits };

    fn to_columns<'a>(&'a self, columns: &mut Vec<ValueRef<'a>>) -> Result<(), AllocError> {
        push_column(columns, ValueRef::Int(i64::from(*self)))
    }

    fn from_columns(columns: &mut Columns<'_>) -> Result<u32, RowFault> {
        u32::try_from(columns.next_natural()?).map_err(|_| RowFault::Store)
    }
}

impl Columned for LeadMinutes {
    ghost codec = { lead_minutes_column };

    fn to_columns<'a>(&'a self, columns: &mut Vec<ValueRef<'a>>) -> Result<(), AllocError> {
        push_column(columns, ValueRef::Int(i64::from(self.minutes())))
    }

    fn from_columns(columns: &mut Columns<'_>) -> Result<LeadMinutes, RowFault> {
        match u16::try_from(columns.next_natural()?) {
            Ok(minutes) => LeadMinutes::new(minutes).ok_or(RowFault::Store),
            Err(_) => Err(RowFault::Store),
        }
    }
}

impl Columned for FileKind {
    ghost codec = { file_kind_column };

    fn to_columns<'a>(&'a self, columns: &mut Vec<ValueRef<'a>>) -> Result<(), AllocError> {
        push_column(columns, ValueRef::Text(self.word().as_bytes()))
    }

    fn from_columns(columns: &mut Columns<'_>) -> Result<FileKind, RowFault> {
        FileKind::read(columns.next_text()?).ok_or(RowFault::Store)
    }
}

impl Columned for RunKind {
    ghost codec = { run_kind_column };

    fn to_columns<'a>(&'a self, columns: &mut Vec<ValueRef<'a>>) -> Result<(), AllocError> {
        let number = match self {
            RunKind::SF => 0,
            RunKind::R1 => 1,
            RunKind::R2 => 2,
            RunKind::R3 => 3,
            RunKind::RF => 4,
            RunKind::DF => 5,
        };
        push_column(columns, ValueRef::Int(number))
    }

    fn from_columns(columns: &mut Columns<'_>) -> Result<RunKind, RowFault> {
        match columns.next_natural()? {
            0 => Ok(RunKind::SF),
            1 => Ok(RunKind::R1),
            2 => Ok(RunKind::R2),
            3 => Ok(RunKind::R3),
            4 => Ok(RunKind::RF),
            5 => Ok(RunKind::DF),
            _ => Err(RowFault::Store),
        }
    }
}
