//! The file of contract volumes from which one Settlement Period is settled.

ghost use Rattle.std.specs.Prelude.{◌≤◌, length, IfOk};
ghost use Rattle.hh_names.specs.Faults.{faults, IsOutcomeOrNoMemory};
ghost use Rattle.hh_texts.specs.PeriodFiles.{period_contract_form, period_contract_row, period_contract_rows};
ghost use Rattle.hh_rows.specs.RowKinds.{most_rows};

use crate::fields::field_in;
use crate::form::{Form, read_rows};
use crate::last_date::LastDate;
use csv::ByteRecord;
use hh_names::{Account, Contract, Counterparties, Fault, Reference};
use hh_num::Kwh;
use std::alloc::Global;

/// The volume of a contract in one Settlement Period.
#[derive(Clone, Copy, Debug, PartialEq, Eq)]
pub struct PeriodContractRow {
    /// The contract's reference.
    pub reference: Reference,
    /// Its counterparties, and the volume from the seller to the buyer, in kWh.
    pub contract: Contract,
}

/// The form `reference,seller,buyer,mwh`.
#[derive(Clone, Copy, Debug, PartialEq, Eq)]
pub struct PeriodContracts;

impl Form for PeriodContracts {
    type Row = PeriodContractRow;

    ghost form = { λ _. period_contract_form };

    fn header(&self) -> &'static [&'static str] {
        &["reference", "seller", "buyer", "mwh"]
    }

    #[tactic(auto, unfolding(crate::specs::PeriodFiles::period_contract_row))]
    fn read_row(&self, fields: &ByteRecord, _: &mut LastDate) -> Result<PeriodContractRow, u32> {
        Ok(PeriodContractRow {
            reference: Reference::read(field_in(fields, 0)).ok_or(1u32)?,
            contract: Contract {
                counterparties: Counterparties {
                    seller: Account::read(field_in(fields, 1)).ok_or(2u32)?,
                    buyer: Account::read(field_in(fields, 2)).ok_or(3u32)?,
                },
                volume: Kwh::read(field_in(fields, 3)).ok_or(4u32)?,
            },
        })
    }
}

/// The rows of a file of contract volumes, or the first fault in it, in the order of
/// `read_rows`.
pub fn read_period_contracts(alloc: Global, bytes: &[u8]) -> Result<Vec<PeriodContractRow>, Fault>
    ensures rows { IsOutcomeOrNoMemory faults (λ rows. rows.items) result
        (period_contract_rows bytes.now) }
    ensures few { IfOk result (λ rows. length rows.items ≤ most_rows) }
{
    read_rows(alloc, &[PeriodContracts], bytes)
}
