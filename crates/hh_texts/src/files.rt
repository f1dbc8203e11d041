//! The six kinds of file.

ghost use Rattle.std.specs.Prelude.{◌≡◌, map, IfOk};
ghost use Rattle.csv.specs.Records.{fields_of};
ghost use Rattle.hh_texts.specs.Files.{contract_row, file_rows, kind_forms, meter_row, party_row, price_row, reallocation_row, unit_row};
ghost use Rattle.hh_names.specs.Faults.{faults, IsOutcomeOrNoMemory};
ghost use Rattle.hh_rows.specs.RowKinds.{IsFileOf};
ghost use Rattle.hh_texts.specs.KindForms.{form_of};

use crate::fields::field_in;
use crate::form::{Form, read_rows};
use crate::last_date::LastDate;
use csv::ByteRecord;
use hh_names::{
    AccessKey, Account, Contract, Counterparties, Fault, PartyId, PeriodNumber, Reading,
    Reallocation, Reference, Side, UnitId, read_yes_no,
};
use hh_num::{Kwh, Percent, Price, Tlm};
use hh_rows::{
    ContractKey, ContractRow, DateRange, FileKind, MeterRow, PartyRegistration, PartyRow, PriceRow,
    ReallocationKey, ReallocationRow, Row, SettlementPeriod, UnitPeriod, UnitRegistration, UnitRow,
};
use hh_time::SettlementDate;
use std::alloc::Global;

/// A form of a kind of file, which its header tells from the kind's other forms. Each kind has one.
#[derive(Clone, Copy, Debug)]
pub enum KindForm {
    Parties,
    Units,
    Meters,
    Prices,
    Contracts,
    Reallocations,
}

impl Form for KindForm {
    type Row = Row;

    ghost form = { form_of };

    fn header(&self) -> &'static [&'static str] {
        match self {
            KindForm::Parties => &["party", "from", "to", "key"],
            KindForm::Units => &["unit", "party", "side", "interconnector", "from", "to"],
            KindForm::Meters => &[
                "unit",
                "date",
                "period",
                "metered_mwh",
                "tlm",
                "balancing_mwh",
            ],
            KindForm::Prices => &["date", "period", "price"],
            KindForm::Contracts => &["reference", "seller", "buyer", "date", "period", "mwh"],
            KindForm::Reallocations => &[
                "unit",
                "account",
                "date",
                "period",
                "percent",
                "fixed_mwh",
            ],
        }
    }

    fn read_row(&self, fields: &ByteRecord, last: &mut LastDate) -> Result<Row, u32> {
        match self {
            KindForm::Parties => read_party(fields),
            KindForm::Units => read_unit(fields),
            KindForm::Meters => read_meter(fields, last),
            KindForm::Prices => read_price(fields, last),
            KindForm::Contracts => read_contract(fields, last),
            KindForm::Reallocations => read_reallocation(fields, last),
        }
    }
}

/// The forms that a file of a kind may have. The first is the one that it usually has.
pub fn forms_of(kind: FileKind) -> &'static [KindForm]
    ensures { map form_of result.now ≡ kind_forms kind }
{
    match kind {
        FileKind::Parties => &[KindForm::Parties],
        FileKind::Units => &[KindForm::Units],
        FileKind::Meters => &[KindForm::Meters],
        FileKind::Prices => &[KindForm::Prices],
        FileKind::Contracts => &[KindForm::Contracts],
        FileKind::Reallocations => &[KindForm::Reallocations],
    }
}

/// The row of a record of parties, or the first column that cannot be read.
#[tactic(auto, unfolding(crate::specs::Files::party_row))]
fn read_party(fields: &ByteRecord) -> Result<Row, u32>
    ensures { result ≡ party_row (fields_of fields.now) }
{
    let party = PartyId::read(field_in(fields, 0)).ok_or(1u32)?;
    let from = SettlementDate::read(field_in(fields, 1)).ok_or(2u32)?;
    let range = DateRange::read_to(from, field_in(fields, 2)).ok_or(3u32)?;
    let key = AccessKey::read(field_in(fields, 3)).ok_or(4u32)?;
    let registration = PartyRegistration { range, key };
    Ok(Row::Party(PartyRow {
        party,
        registration,
    }))
}

/// The row of a record of units, or the first column that cannot be read.
#[tactic(auto, unfolding(crate::specs::Files::unit_row))]
fn read_unit(fields: &ByteRecord) -> Result<Row, u32>
    ensures { result ≡ unit_row (fields_of fields.now) }
{
    let unit = UnitId::read(field_in(fields, 0)).ok_or(1u32)?;
    let party = PartyId::read(field_in(fields, 1)).ok_or(2u32)?;
    let side = Side::read(field_in(fields, 2)).ok_or(3u32)?;
    let interconnector = read_yes_no(field_in(fields, 3)).ok_or(4u32)?;
    let from = SettlementDate::read(field_in(fields, 4)).ok_or(5u32)?;
    let range = DateRange::read_to(from, field_in(fields, 5)).ok_or(6u32)?;
    let registration = UnitRegistration {
        lead: Account { party, side },
        interconnector,
        range,
    };
    Ok(Row::Unit(UnitRow { unit, registration }))
}

/// The row of a record of meter volumes, or the first column that cannot be read.
#[tactic(auto, unfolding(crate::specs::Files::meter_row))]
fn read_meter(fields: &ByteRecord, last: &mut LastDate) -> Result<Row, u32>
    ensures { result ≡ meter_row (fields_of fields.now) }
{
    let unit = UnitId::read(field_in(fields, 0)).ok_or(1u32)?;
    let date = last.read(field_in(fields, 1)).ok_or(2u32)?;
    let period = PeriodNumber::read(field_in(fields, 2)).ok_or(3u32)?;
    let at = SettlementPeriod { date, period };
    Ok(Row::Meter(MeterRow {
        key: UnitPeriod { unit, at },
        reading: Reading {
            metered: Kwh::read(field_in(fields, 3)).ok_or(4u32)?,
            tlm: Tlm::read(field_in(fields, 4)).ok_or(5u32)?,
            balancing: Kwh::read(field_in(fields, 5)).ok_or(6u32)?,
        },
    }))
}

/// The row of a record of prices, or the first column that cannot be read.
#[tactic(auto, unfolding(crate::specs::Files::price_row))]
fn read_price(fields: &ByteRecord, last: &mut LastDate) -> Result<Row, u32>
    ensures { result ≡ price_row (fields_of fields.now) }
{
    let date = last.read(field_in(fields, 0)).ok_or(1u32)?;
    let period = PeriodNumber::read(field_in(fields, 1)).ok_or(2u32)?;
    let at = SettlementPeriod { date, period };
    let price = Price::read(field_in(fields, 2)).ok_or(3u32)?;
    Ok(Row::Price(PriceRow { at, price }))
}

/// The row of a record of contracts, or the first column that cannot be read.
#[tactic(auto, unfolding(crate::specs::Files::contract_row))]
fn read_contract(fields: &ByteRecord, last: &mut LastDate) -> Result<Row, u32>
    ensures { result ≡ contract_row (fields_of fields.now) }
{
    let reference = Reference::read(field_in(fields, 0)).ok_or(1u32)?;
    let seller = Account::read(field_in(fields, 1)).ok_or(2u32)?;
    let buyer = Account::read(field_in(fields, 2)).ok_or(3u32)?;
    let date = last.read(field_in(fields, 3)).ok_or(4u32)?;
    let period = PeriodNumber::read(field_in(fields, 4)).ok_or(5u32)?;
    let at = SettlementPeriod { date, period };
    Ok(Row::Contract(ContractRow {
        key: ContractKey { reference, at },
        contract: Contract {
            counterparties: Counterparties { seller, buyer },
            volume: Kwh::read(field_in(fields, 5)).ok_or(6u32)?,
        },
    }))
}

/// The row of a record of reallocations, or the first column that cannot be read.
#[tactic(auto, unfolding(crate::specs::Files::reallocation_row))]
fn read_reallocation(fields: &ByteRecord, last: &mut LastDate) -> Result<Row, u32>
    ensures { result ≡ reallocation_row (fields_of fields.now) }
{
    let unit = UnitId::read(field_in(fields, 0)).ok_or(1u32)?;
    let account = Account::read(field_in(fields, 1)).ok_or(2u32)?;
    let date = last.read(field_in(fields, 2)).ok_or(3u32)?;
    let period = PeriodNumber::read(field_in(fields, 3)).ok_or(4u32)?;
    let at = SettlementPeriod { date, period };
    let unit_period = UnitPeriod { unit, at };
    Ok(Row::Reallocation(ReallocationRow {
        key: ReallocationKey {
            unit_period,
            account,
        },
        reallocation: Reallocation {
            percent: Percent::read(field_in(fields, 4)).ok_or(5u32)?,
            fixed: Kwh::read(field_in(fields, 5)).ok_or(6u32)?,
        },
    }))
}

/// The rows of a file of a kind, or the first fault in it, in the order of `read_rows`.
///
/// A field must be in the grammar and range of its column (profile). An empty `to` is 2099-12-31. A
/// `to` before `from` is a fault of the column `to`. Only the fields of each row are judged, not what is
/// registered or in force. So the rows of a file that can be read are rows of its kind, each field is in
/// its grammar and range, and there are no more rows and bytes than there may be.
pub fn read_file(alloc: Global, kind: FileKind, bytes: &[u8]) -> Result<Vec<Row>, Fault>
    ensures rows { IsOutcomeOrNoMemory faults (λ rows. rows.items) result
        (file_rows kind bytes.now) }
    ensures fits { IfOk result (λ rows. IsFileOf kind bytes.now rows.items) }
{
    read_rows(alloc, forms_of(kind), bytes)
}
