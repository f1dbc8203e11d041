//! One Settlement Period, from the texts of its inputs.

ghost use Rattle.std.specs.Prelude.{◌≡◌, ◌≤◌, length, map, Err, IfOk, OnOk, IsErrOf};
ghost use Rattle.hh_devices.specs.DeviceChanges.{change};
ghost use Rattle.hh_calc.specs.Ready.{AreInOrder, AreListed, AreSubsidiariesFew};
ghost use Rattle.hh_devices.specs.Devices.{Failed};
ghost use Rattle.hh_names.specs.Faults.{IsOutcomeOrNoMemory, Refuses};
ghost use Rattle.hh_num.specs.Quantities.{price_value};
ghost use Rattle.hh_period.specs.declared.rejection.Rejection.{Rejection};
ghost use Rattle.hh_texts.specs.PeriodFiles.{period_contract_rows, period_meter_rows};
ghost use Rattle.hh_rows.specs.RowKinds.{most_rows};
ghost use Rattle.hh_period.specs.Outcome.{period_input, period_outcome, priced, read_from, rejections, Writes, WritesFront};
ghost use Rattle.hh_period.specs.Rows.{accepted_rows, in_force, period_contract_entry};

use crate::gather::{accounts_named, contracts_in_force, units_in_force};
use crate::period_text::push_period;
use crate::rejection::{Input, Rejection};
use hh_calc::{CalcFault, Contracts, PeriodData, settle_period};
use hh_devices::{DeviceFailed, Sink, write_whole};
use hh_names::{Contract, Fault, Refusal};
use hh_num::Price;
use hh_texts::{PeriodContractRow, PeriodMeterRow, read_period_contracts, read_period_meters};
use std::alloc::Global;

/// Why a period is not settled, or its text not written.
#[derive(Clone, Copy, Debug, PartialEq, Eq)]
pub enum PeriodFault {
    /// The inputs are refused, and nothing was written. Refusals 55 and 90 name no input.
    Refused(Rejection),
    /// The output failed or took nothing, and a beginning of the text was written.
    Write,
}

impl From<Rejection> for PeriodFault {
    ghost use Rattle.std.specs.Prelude.{◌≡◌};
    ghost use Rattle.hh_period.specs.declared.inputs.PeriodFault.TheVariants.{Refused};

    ghost from_gives = { λ rejection fault. fault ≡ Refused rejection };

    fn from(rejection: Rejection) -> PeriodFault {
        PeriodFault::Refused(rejection)
    }
}

/// Settles one period from two files and a price (Section T), and writes a line for each account that the
/// files name, in account order, and then the residual.
///
/// # Errors
///
/// `Refused` with the first refusal, in the order METER (10 to 14), CONTRACTS (10 to 14, then 35 and 36),
/// PRICE (14), the limits of a run (55). If memory runs out, refusal 90 may take the place of any answer.
/// Nothing was written then. `Write`: the output failed or took nothing in this call, and a beginning of
/// the text was written.
pub fn period<S: Sink>(
    alloc: Global,
    meter: &[u8],
    contracts: &[u8],
    price: &[u8],
    out: &mut S,
) -> Result<(), PeriodFault>
    // The text of the settled period was written, and nothing else.
    ensures written { OnOk result (Writes (period_outcome meter.now contracts.now price.now)
        (change S.taken S.failures out.old out.new)) }
    ensures well { OnOk result (S.failures out.new ≡ S.failures out.old) }

    // The first refusal, or the refusal for memory. Nothing was written.
    ensures refused { (e : Rejection) → result ≡ Err (PeriodFault.Refused e)
        → Refuses rejections e (period_outcome meter.now contracts.now price.now) }
    ensures untouched { (e : Rejection) → result ≡ Err (PeriodFault.Refused e) → out.new ≡ out.old }

    // The device failed in this call, and a beginning of the text was written.
    ensures cut { IsErrOf result PeriodFault.Write
        → WritesFront (period_outcome meter.now contracts.now price.now)
        (change S.taken S.failures out.old out.new) }
    ensures failed { IsErrOf result PeriodFault.Write
        → Failed (S.failures out.old) (S.failures out.new) }
{
    let text = settle_inputs(alloc, meter, contracts, price)?;
    match write_whole(out, &text) {
        Ok(()) => Ok(()),
        Err(DeviceFailed) => Err(PeriodFault::Write),
    }
}

/// The rows of METER.
fn meter_rows(alloc: Global, meter: &[u8]) -> Result<Vec<PeriodMeterRow>, Rejection>
    ensures { IsOutcomeOrNoMemory rejections (λ rows. rows.items) result
        (read_from Input.Meter (period_meter_rows meter.now)) }
{
    match read_period_meters(alloc, meter) {
        Ok(rows) => Ok(rows),
        Err(fault) => Err(Rejection::of_input(Input::Meter, fault)),
    }
}

/// The rows of CONTRACTS.
fn contract_rows(alloc: Global, contracts: &[u8]) -> Result<Vec<PeriodContractRow>, Rejection>
    ensures rows { IsOutcomeOrNoMemory rejections (λ rows. rows.items) result
        (read_from Input.Contracts (period_contract_rows contracts.now)) }
    ensures few { IfOk result (λ rows. length rows.items ≤ most_rows) }
{
    match read_period_contracts(alloc, contracts) {
        Ok(rows) => Ok(rows),
        Err(fault) => Err(Rejection::of_input(Input::Contracts, fault)),
    }
}

/// The contracts in force, if none of the rows is refused.
fn accepted_contracts(alloc: Global, rows: &[PeriodContractRow]) -> Result<Vec<Contract>, Rejection>
    requires { length rows.now ≤ most_rows }
    ensures accepted { IsOutcomeOrNoMemory rejections (λ _. rows.now) result
        (read_from Input.Contracts (accepted_rows rows.now)) }
    ensures contracts { IfOk result (λ all.
        all.items ≡ in_force (map period_contract_entry rows.now)) }
{
    match contracts_in_force(alloc, rows) {
        Ok(contracts) => Ok(contracts),
        Err(fault) => Err(Rejection::of_input(Input::Contracts, fault)),
    }
}

/// The price in PRICE.
fn read_price(price: &[u8]) -> Result<Price, Rejection>
    ensures { IsOutcomeOrNoMemory rejections (λ value. value) result
        (priced (price_value price.now)) }
{
    match Price::read(price) {
        Some(value) => Ok(value),
        None => Err(Rejection::of_input(Input::Price, Fault::of(Refusal::BadField))),
    }
}

/// The terms of the period from its inputs.
fn gather_period(
    alloc: Global,
    meter: &[u8],
    contracts: &[u8],
    price: &[u8],
) -> Result<PeriodData, Rejection>
    ensures gathered { IsOutcomeOrNoMemory rejections (λ period. period) result
        (period_input meter.now contracts.now price.now) }
    ensures ordered { IfOk result (λ period. AreInOrder period) }
    ensures listed { IfOk result (λ period. AreListed period) }
    ensures few { IfOk result (λ period. AreSubsidiariesFew period) }
{
    let meters = meter_rows(alloc, meter)?;
    let rows = contract_rows(alloc, contracts)?;
    let contracts = accepted_contracts(alloc, &rows)?;
    let price = read_price(price)?;
    let accounts = accounts_named(alloc, &meters, &rows)?;
    let units = units_in_force(alloc, &meters)?;
    Ok(PeriodData::new(accounts, units, Contracts::Rows(contracts), price))
}

/// The text of the period that is settled from the inputs.
fn settle_inputs(
    alloc: Global,
    meter: &[u8],
    contracts: &[u8],
    price: &[u8],
) -> Result<Vec<u8>, Rejection>
    ensures { IsOutcomeOrNoMemory rejections (λ text. text.items) result
        (period_outcome meter.now contracts.now price.now) }
{
    let period = gather_period(alloc, meter, contracts, price)?;
    match settle_period(alloc, &period) {
        Ok(settled) => {
            let mut text = Vec::new(alloc);
            push_period(&mut text, &settled)?;
            Ok(text)
        }
        Err(CalcFault::TooLarge) => Err(Rejection::of(Refusal::TooLarge)),
        Err(CalcFault::Memory) => Err(Rejection::of(Refusal::Memory)),
    }
}
