//! The file of meter volumes from which one Settlement Period is settled.

ghost use Rattle.std.specs.Prelude.{◌≤◌, length, IfOk};
ghost use Rattle.hh_names.specs.Faults.{faults, IsOutcomeOrNoMemory};
ghost use Rattle.hh_texts.specs.PeriodFiles.{period_meter_form, period_meter_row, period_meter_rows};
ghost use Rattle.hh_rows.specs.RowKinds.{most_rows};

use crate::fields::field_in;
use crate::form::{Form, read_rows};
use crate::last_date::LastDate;
use csv::ByteRecord;
use hh_names::{Account, Fault, Reading, UnitId};
use hh_num::{Kwh, Tlm};
use std::alloc::Global;

/// The volumes of a BM Unit in one Settlement Period.
#[derive(Clone, Copy, Debug, PartialEq, Eq)]
pub struct PeriodMeterRow {
    /// The BM Unit.
    pub unit: UnitId,
    /// The account of its Lead Party to which the unit's energy is credited.
    pub lead: Account,
    /// Its metered volume, its loss multiplier and its balancing volume.
    pub reading: Reading,
}

/// The form `unit,account,metered_mwh,tlm,balancing_mwh`.
#[derive(Clone, Copy, Debug, PartialEq, Eq)]
pub struct PeriodMeters;

impl Form for PeriodMeters {
    type Row = PeriodMeterRow;

    ghost form = { λ _. period_meter_form };

    fn header(&self) -> &'static [&'static str] {
        &["unit", "account", "metered_mwh", "tlm", "balancing_mwh"]
    }

    #[tactic(auto, unfolding(crate::specs::PeriodFiles::period_meter_row))]
    fn read_row(&self, fields: &ByteRecord, _: &mut LastDate) -> Result<PeriodMeterRow, u32> {
        Ok(PeriodMeterRow {
            unit: UnitId::read(field_in(fields, 0)).ok_or(1u32)?,
            lead: Account::read(field_in(fields, 1)).ok_or(2u32)?,
            reading: Reading {
                metered: Kwh::read(field_in(fields, 2)).ok_or(3u32)?,
                tlm: Tlm::read(field_in(fields, 3)).ok_or(4u32)?,
                balancing: Kwh::read(field_in(fields, 4)).ok_or(5u32)?,
            },
        })
    }
}

/// The rows of a file of meter volumes, or the first fault in it, in the order of `read_rows`.
pub fn read_period_meters(alloc: Global, bytes: &[u8]) -> Result<Vec<PeriodMeterRow>, Fault>
    ensures rows { IsOutcomeOrNoMemory faults (λ rows. rows.items) result
        (period_meter_rows bytes.now) }
    ensures few { IfOk result (λ rows. length rows.items ≤ most_rows) }
{
    read_rows(alloc, &[PeriodMeters], bytes)
}
