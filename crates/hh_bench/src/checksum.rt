//! Numbers by which rows, and settled periods, are compared.

use hh_calc::{AccountRow, PeriodResult};
use hh_names::{Account, Side};
use hh_rows::{
    ContractRow, DateRange, MeterRow, PartyRow, ReallocationRow, Row, SettlementPeriod, UnitPeriod,
    UnitRow,
};

/// The checksum of the residual, the accounts' rows and the credits, each list in its order.
pub(crate) fn checksum_of(settled: &PeriodResult) -> u64 {
    let sum = mixed(0, settled.residual().units());
    let sum = settled.accounts().iter().fold(sum, mixed_result);
    let credits = settled.credits().iter();
    credits.fold(sum, |sum, row| mixed(sum, row.credited.units()))
}

fn mixed_result(sum: u64, row: &AccountRow) -> u64 {
    let sum = mixed(sum, row.credited.units());
    let sum = mixed(sum, row.balancing.units());
    let sum = mixed(sum, row.contracts.units());
    let sum = mixed(sum, row.imbalance.units());
    let sum = mixed(sum, row.charge.units());
    mixed(sum, row.share.units())
}

/// The checksum of all fields of the rows, in their order.
pub(crate) fn checksum_of_rows(rows: &[Row]) -> u64 {
    rows.iter().fold(0, mixed_row)
}

fn mixed_row(sum: u64, row: &Row) -> u64 {
    match row {
        Row::Party(row) => mixed_party(sum, row),
        Row::Unit(row) => mixed_unit(sum, row),
        Row::Meter(row) => mixed_meter(sum, row),
        Row::Price(row) => mixed(mixed_period(sum, row.at), row.price.units()),
        Row::Contract(row) => mixed_contract(sum, row),
        Row::Reallocation(row) => mixed_reallocation(sum, row),
    }
}

fn mixed_party(sum: u64, row: &PartyRow) -> u64 {
    let sum = mixed_bytes(sum, row.party.as_bytes());
    let sum = mixed_range(sum, row.registration.range);
    mixed_bytes(sum, row.registration.key.as_bytes())
}

fn mixed_unit(sum: u64, row: &UnitRow) -> u64 {
    let sum = mixed_bytes(sum, row.unit.as_bytes());
    let sum = mixed_account(sum, row.registration.lead);
    let sum = mixed(sum, i64::from(row.registration.interconnector));
    mixed_range(sum, row.registration.range)
}

fn mixed_meter(sum: u64, row: &MeterRow) -> u64 {
    let sum = mixed_unit_period(sum, row.key);
    let sum = mixed(sum, row.reading.metered.units());
    let sum = mixed(sum, row.reading.tlm.units());
    mixed(sum, row.reading.balancing.units())
}

fn mixed_contract(sum: u64, row: &ContractRow) -> u64 {
    let sum = mixed_bytes(sum, row.key.reference.as_bytes());
    let sum = mixed_account(sum, row.contract.counterparties.seller);
    let sum = mixed_account(sum, row.contract.counterparties.buyer);
    let sum = mixed_period(sum, row.key.at);
    mixed(sum, row.contract.volume.units())
}

fn mixed_reallocation(sum: u64, row: &ReallocationRow) -> u64 {
    let sum = mixed_unit_period(sum, row.key.unit_period);
    let sum = mixed_account(sum, row.key.account);
    let sum = mixed(sum, row.reallocation.percent.units());
    mixed(sum, row.reallocation.fixed.units())
}

fn mixed_unit_period(sum: u64, key: UnitPeriod) -> u64 {
    let sum = mixed_bytes(sum, key.unit.as_bytes());
    mixed_period(sum, key.at)
}

fn mixed_period(sum: u64, at: SettlementPeriod) -> u64 {
    let sum = mixed(sum, i64::from(at.date.number()));
    mixed(sum, i64::from(at.period.number()))
}

fn mixed_range(sum: u64, range: DateRange) -> u64 {
    let sum = mixed(sum, i64::from(range.from().number()));
    mixed(sum, i64::from(range.to().number()))
}

fn mixed_account(sum: u64, account: Account) -> u64 {
    let sum = mixed_bytes(sum, account.party.as_bytes());
    mixed(sum, i64::from(account.side == Side::Consumption))
}

/// A checksum with more bytes.
pub(crate) fn mixed_bytes(sum: u64, bytes: &[u8]) -> u64 {
    bytes
        .iter()
        .fold(sum, |sum, byte| mixed(sum, i64::from(*byte)))
}

/// A checksum with one more number.
fn mixed(sum: u64, number: i64) -> u64 {
    let sum = sum.wrapping_mul(1_099_511_628_211);
    sum.wrapping_add(number.unsigned_abs())
        .wrapping_mul(2)
        .wrapping_add(u64::from(number < 0))
}
