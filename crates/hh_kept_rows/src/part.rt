//! The part of what is registered and in force by which rows are judged.

ghost use Rattle.std.specs.Prelude.{◌≡◌, ◌≤◌, ℕ, [], true, false, filter, All, IfErr, IfOk, IsOk, OnOk, Some};
ghost use Rattle.std.specs.FinMap.{find};
ghost use Rattle.std.specs.List.{list_any};
ghost use Rattle.hh_tables.specs.Tables.{IsTable, put_all};
ghost use Rattle.hh_rows.specs.Keys.{contract_key_cmp, reallocation_key_cmp, settlement_period_cmp, unit_period_cmp};
ghost use Rattle.hh_rules.specs.RegisterView.{held_reallocation, holding_leads, holding_reallocation, tables_in, AgreesOnParty, AgreesOnReference, AgreesOnUnit, ServesFor};
ghost use Rattle.hh_states.specs.Soundness.{AreSound};
ghost use Rattle.hh_kept_rows.specs.Parts.{leads_for, names_unit, whole_of};
ghost use Rattle.hh_kept_rows.specs.steps.Parts.{is_after, is_named_in, with_reallocations, AgreesOnNames, AgreesOnUnits, Grows, IsPartOf, NoneAfter, NoneNegative};

use crate::kept_register::KeptRegister;
use crate::named_units::NamedUnits;
use hh_names::{PartyId, Reading, Reallocation, Reference, Refusal, UnitId};
use hh_rows::{ContractKey, LeadMinutes, ReallocationKey, Row, SettlementPeriod, UnitPeriod};
use hh_rules::Register;
use hh_store::StoreFault;
use std::alloc::{AllocError, Global};

impl KeptRegister {
    /// A register that judges these rows, and is changed by them, as a register of everything that is
    /// registered and in force would. `Store` only if what is registered and in force is not sound.
    pub fn register_for(
        &self,
        alloc: Global,
        lead_minutes: LeadMinutes,
        rows: &[Row],
    ) -> Result<Register, StoreFault>
        ensures serves { IfOk result (ServesFor rows.now (whole_of lead_minutes self.now)) }
        ensures memory_alone { AreSound self.now
            → IfErr result (λ fault. fault ≡ StoreFault.Memory) }
    {
        let mut part = self.names_of(alloc, lead_minutes, rows)?;
        let named = NamedUnits::of(alloc, rows)?;
        self.hold_reallocations(&mut part, &named)?;
        self.hold_leads(alloc, &mut part, rows)?;
        Ok(part)
    }

    /// Holds the registrations of all units if one of these rows names a unit. `Err` only if memory is
    /// refused.
    fn hold_leads(&self, alloc: Global, part: &mut Register, rows: &[Row]) -> Result<(), AllocError>
        ensures { OnOk result (part.new ≡ holding_leads part.old
            (leads_for rows.now self.now.leads (tables_in part.old).leads)) }
    {
        if name_units(rows) {
            part.hold_leads(self.leads.copied(alloc)?);
        }
        Ok(())
    }

    /// A register that has what these rows name, and the rows in force of their keys, but no
    /// registration of a unit and no reallocation. `Store` only if what is registered and in force is not sound.
    fn names_of(
        &self,
        alloc: Global,
        lead_minutes: LeadMinutes,
        rows: &[Row],
    ) -> Result<Register, StoreFault>
        ensures part { IfOk result (IsPartOf (whole_of lead_minutes self.now)) }
        ensures agrees { IfOk result (λ part.
            All (AgreesOnNames self.now (tables_in part)) rows.now) }
        ensures memory_alone { AreSound self.now
            → IfErr result (λ fault. fault ≡ StoreFault.Memory) }
    {
        let parties = count(self.parties.len())?;
        let units = count(self.units.len())?;
        let mut part = Register::part(alloc, lead_minutes, parties, units);
        let all_units = self.hold_units_for(&mut part, rows)?;
        let last = self.last_reading_for(rows);
        for row in rows {
            self.hold_names(&mut part, all_units, &last, row)?;
        }
        Ok(part)
    }

    /// Holds all registered units if the rows are readings, and there are at least as many as units. Says
    /// whether all are held.
    fn hold_units_for(&self, part: &mut Register, rows: &[Row]) -> Result<bool, StoreFault>
        ensures grows { OnOk result (Grows self.now part.old part.new) }
        ensures agrees { (lead_minutes : ℕ) → IsPartOf (whole_of lead_minutes self.now) part.old
            → IfOk result (λ all. all ≡ true → AgreesOnUnits self.now (tables_in part.new)) }
        ensures memory_alone { IfErr result (λ fault. fault ≡ StoreFault.Memory) }
    {
        if !self.are_many_readings(rows) {
            return Ok(false);
        }
        self.hold_units(part)?;
        Ok(true)
    }

    /// Whether the rows are readings, and there are at least as many as units.
    fn are_many_readings(&self, rows: &[Row]) -> bool {
        match rows.first() {
            Some(Row::Meter(_)) => rows.len() >= self.units.len(),
            _ => false,
        }
    }

    /// Holds all registered units.
    fn hold_units(&self, part: &mut Register) -> Result<(), StoreFault>
        ensures grows { OnOk result (Grows self.now part.old part.new) }
        ensures agrees { (lead_minutes : ℕ) → IsPartOf (whole_of lead_minutes self.now) part.old
            → OnOk result (AgreesOnUnits self.now (tables_in part.new)) }
        ensures memory_alone { IfErr result (λ fault. fault ≡ StoreFault.Memory) }
    {
        for (place, row) in self.units.rows().iter().enumerate() {
            self.hold_unit_near(part, place, &row.0)?;
        }
        Ok(())
    }

    /// Holds a unit, if it is registered. Looks at the place `near` first.
    fn hold_unit_near(
        &self,
        part: &mut Register,
        near: usize,
        unit: &UnitId,
    ) -> Result<(), StoreFault>
        ensures grows { OnOk result (Grows self.now part.old part.new) }
        ensures agrees { (lead_minutes : ℕ) → IsPartOf (whole_of lead_minutes self.now) part.old
            → OnOk result (AgreesOnUnit self.now (tables_in part.new) unit.now) }
        ensures memory_alone { IfErr result (λ fault. fault ≡ StoreFault.Memory) }
    {
        match self.units.get_near(near, unit) {
            Some(registration) => Ok(part.hold_unit(*unit, registration)?),
            None => Ok(()),
        }
    }

    /// A Settlement Period after which no reading counts, if the rows are readings and any reading counts.
    fn last_reading_for(&self, rows: &[Row]) -> Option<SettlementPeriod>
        ensures { NoneAfter result self.now.meters }
    {
        match rows.first() {
            Some(Row::Meter(_)) => {
                let (first, rest) = self.meters.rows().split_first()?;
                Some(last_period(first.0.at, rest))
            }
            _ => None,
        }
    }

    /// Holds what a row names, and the row in force of its key if it isn't a reallocation. If `last` is a
    /// Settlement Period, there is no reading after it. If all units are held, the unit of a reading is not
    /// looked for.
    fn hold_names(
        &self,
        part: &mut Register,
        all_units: bool,
        last: &Option<SettlementPeriod>,
        row: &Row,
    ) -> Result<(), StoreFault>
        requires units { all_units ≡ true → AgreesOnUnits self.now (tables_in part.old) }
        requires until { NoneAfter last.now self.now.meters }
        ensures grows { OnOk result (Grows self.now part.old part.new) }
        ensures agrees { (lead_minutes : ℕ) → IsPartOf (whole_of lead_minutes self.now) part.old
            → OnOk result (AgreesOnNames self.now (tables_in part.new) row.now) }
        ensures memory_alone { IfErr result (λ fault. fault ≡ StoreFault.Memory) }
    {
        match row {
            Row::Party(row) => self.hold_party(part, &row.party),
            Row::Unit(row) => {
                self.hold_party(part, &row.registration.lead.party)?;
                self.hold_unit(part, &row.unit)
            }
            Row::Meter(row) => {
                self.hold_unit_unless(part, all_units, &row.key.unit)?;
                self.hold_reading(part, last, &row.key)
            }
            Row::Price(row) => self.hold_price(part, &row.at),
            Row::Contract(row) => {
                self.hold_party(part, &row.contract.counterparties.seller.party)?;
                self.hold_party(part, &row.contract.counterparties.buyer.party)?;
                self.hold_reference(part, &row.key.reference)?;
                self.hold_contract(part, &row.key)
            }
            Row::Reallocation(row) => {
                self.hold_party(part, &row.key.account.party)?;
                self.hold_unit(part, &row.key.unit_period.unit)
            }
        }
    }

    /// Holds a party, if it is registered and not held yet.
    fn hold_party(&self, part: &mut Register, party: &PartyId) -> Result<(), StoreFault>
        ensures grows { OnOk result (Grows self.now part.old part.new) }
        ensures agrees { (lead_minutes : ℕ) → IsPartOf (whole_of lead_minutes self.now) part.old
            → OnOk result (AgreesOnParty self.now (tables_in part.new) party.now) }
        ensures memory_alone { IfErr result (λ fault. fault ≡ StoreFault.Memory) }
    {
        if part.party(party).is_some() {
            return Ok(());
        }
        match self.party(party) {
            Some(registration) => Ok(part.hold_party(*party, registration)?),
            None => Ok(()),
        }
    }

    /// Holds a unit, if it is registered and not held yet.
    fn hold_unit(&self, part: &mut Register, unit: &UnitId) -> Result<(), StoreFault>
        ensures grows { OnOk result (Grows self.now part.old part.new) }
        ensures agrees { (lead_minutes : ℕ) → IsPartOf (whole_of lead_minutes self.now) part.old
            → OnOk result (AgreesOnUnit self.now (tables_in part.new) unit.now) }
        ensures memory_alone { IfErr result (λ fault. fault ≡ StoreFault.Memory) }
    {
        if part.unit(unit).is_some() {
            return Ok(());
        }
        match self.unit(unit) {
            Some(registration) => Ok(part.hold_unit(*unit, registration)?),
            None => Ok(()),
        }
    }

    /// Holds a unit, if it is registered and not held yet. Doesn't look for it if all units are held.
    fn hold_unit_unless(
        &self,
        part: &mut Register,
        all_units: bool,
        unit: &UnitId,
    ) -> Result<(), StoreFault>
        requires { all_units ≡ true → AgreesOnUnits self.now (tables_in part.old) }
        ensures grows { OnOk result (Grows self.now part.old part.new) }
        ensures agrees { (lead_minutes : ℕ) → IsPartOf (whole_of lead_minutes self.now) part.old
            → OnOk result (AgreesOnUnit self.now (tables_in part.new) unit.now) }
        ensures memory_alone { IfErr result (λ fault. fault ≡ StoreFault.Memory) }
    {
        if all_units {
            return Ok(());
        }
        self.hold_unit(part, unit)
    }

    /// Holds the seller and the buyer of a reference, if a row has fixed them.
    fn hold_reference(&self, part: &mut Register, reference: &Reference) -> Result<(), StoreFault>
        ensures grows { OnOk result (Grows self.now part.old part.new) }
        ensures agrees { (lead_minutes : ℕ) → IsPartOf (whole_of lead_minutes self.now) part.old
            → OnOk result (AgreesOnReference self.now (tables_in part.new) reference.now) }
        ensures memory_alone { IfErr result (λ fault. fault ≡ StoreFault.Memory) }
    {
        match self.reference(reference) {
            Some(counterparties) => Ok(part.hold_reference(*reference, counterparties)?),
            None => Ok(()),
        }
    }

    /// Holds the reading that counts for a unit in a Settlement Period, if there is one.
    fn hold_reading(
        &self,
        part: &mut Register,
        last: &Option<SettlementPeriod>,
        key: &UnitPeriod,
    ) -> Result<(), StoreFault>
        requires { NoneAfter last.now self.now.meters }
        ensures grows { OnOk result (Grows self.now part.old part.new) }
        ensures agrees { (lead_minutes : ℕ) → IsPartOf (whole_of lead_minutes self.now) part.old
            → OnOk result (find unit_period_cmp key.now (tables_in part.new).meters
            ≡ find unit_period_cmp key.now self.now.meters) }
        ensures memory_alone { IfErr result (λ fault. fault ≡ StoreFault.Memory) }
    {
        match self.reading_until(last, key) {
            Some(reading) => Ok(part.hold_reading(*key, reading)?),
            None => Ok(()),
        }
    }

    /// The reading that counts for a unit in a Settlement Period, if there is one. If `last` is a
    /// Settlement Period, there is none after it. Most readings come in the order of time.
    fn reading_until(&self, last: &Option<SettlementPeriod>, key: &UnitPeriod) -> Option<Reading>
        requires { NoneAfter last.now self.now.meters }
        ensures { result ≡ find unit_period_cmp key.now self.now.meters }
    {
        match last {
            Some(last) if last.cmp(&key.at).is_lt() => None,
            _ => self.meters.get(key),
        }
    }

    /// Holds the price that counts for a Settlement Period, if there is one.
    fn hold_price(&self, part: &mut Register, at: &SettlementPeriod) -> Result<(), StoreFault>
        ensures grows { OnOk result (Grows self.now part.old part.new) }
        ensures agrees { (lead_minutes : ℕ) → IsPartOf (whole_of lead_minutes self.now) part.old
            → OnOk result (find settlement_period_cmp at.now (tables_in part.new).prices
            ≡ find settlement_period_cmp at.now self.now.prices) }
        ensures memory_alone { IfErr result (λ fault. fault ≡ StoreFault.Memory) }
    {
        match self.prices.get(at) {
            Some(price) => Ok(part.hold_price(*at, price)?),
            None => Ok(()),
        }
    }

    /// Holds the volume in force of a reference in a Settlement Period, if a row is in force.
    fn hold_contract(&self, part: &mut Register, key: &ContractKey) -> Result<(), StoreFault>
        ensures grows { OnOk result (Grows self.now part.old part.new) }
        ensures agrees { (lead_minutes : ℕ) → IsPartOf (whole_of lead_minutes self.now) part.old
            → OnOk result (find contract_key_cmp key.now (tables_in part.new).contracts
            ≡ find contract_key_cmp key.now self.now.contracts) }
        ensures memory_alone { IfErr result (λ fault. fault ≡ StoreFault.Memory) }
    {
        match self.contracts.get(key) {
            Some(volume) => Ok(part.hold_contract(*key, volume)?),
            None => Ok(()),
        }
    }

    /// Holds all reallocations in force of the units that are named. `Store` if more than 100 percent of a
    /// unit would be in force.
    fn hold_reallocations(&self, part: &mut Register, named: &NamedUnits) -> Result<(), StoreFault>
        ensures held { OnOk result (part.new ≡ with_reallocations
            (put_all reallocation_key_cmp (filter (is_named_in named.now) self.now.reallocations)
            (tables_in part.old).reallocations) part.old) }
        ensures rising { IsTable reallocation_key_cmp self.now.reallocations }
        ensures memory_alone { AreSound self.now → (tables_in part.old).reallocations ≡ []
            → IfErr result (λ fault. fault ≡ StoreFault.Memory) }
    {
        let rows = self.reallocation_rows();
        none_negative(rows);
        for (key, reallocation) in rows {
            if named.contains(&key.unit_period) {
                hold_reallocation(part, *key, *reallocation)?;
            }
        }
        Ok(())
    }

    /// The reallocations in force, in the order of their keys.
    pub(crate) fn reallocation_rows(&self) -> &[(ReallocationKey, Reallocation)]
        ensures rows { result.now ≡ self.now.reallocations }
        ensures rising { IsTable reallocation_key_cmp self.now.reallocations }
    {
        self.reallocations.rows()
    }
}

/// Whether one of these rows names a unit.
pub fn name_units(rows: &[Row]) -> bool
    ensures { result ≡ list_any names_unit rows.now }
{
    rows.iter().any(|row| names_unit(row))
}

/// Whether a row names a unit.
fn names_unit(row: &Row) -> bool
    ensures { result ≡ names_unit row.now }
{
    matches!(row, Row::Unit(_) | Row::Meter(_) | Row::Reallocation(_))
}

/// For the proof: no percentage of the rows is negative, as their type says. The compiler leaves nothing of
/// this.
fn none_negative(rows: &[(ReallocationKey, Reallocation)])
    ensures { NoneNegative rows.now }
{
    for row in rows {
        let _units = row.1.percent.units();
    }
}

/// The last of a Settlement Period and those of some readings.
fn last_period(first: SettlementPeriod, readings: &[(UnitPeriod, Reading)]) -> SettlementPeriod
    ensures first { is_after first result ≡ false }
    ensures until { NoneAfter (Some result) readings.now }
{
    let mut last = first;
    for reading in readings {
        if last.cmp(&reading.0.at).is_lt() {
            last = reading.0.at;
        }
    }
    last
}

/// How many there are. `Store` if a `u32` can't count them, which is more than any office has.
fn count(rows: usize) -> Result<u32, StoreFault>
    ensures value { IfOk result (λ count. count ≡ rows) }
    ensures counted { rows ≤ u32.MAX → IsOk result }
{
    match u32::try_from(rows) {
        Ok(count) => Ok(count),
        Err(_) => Err(StoreFault::Store),
    }
}

/// Holds a reallocation. `Store` if more than 100 percent of a unit would be in force.
fn hold_reallocation(
    part: &mut Register,
    key: ReallocationKey,
    reallocation: Reallocation,
) -> Result<(), StoreFault>
    ensures held { OnOk result (part.new ≡ holding_reallocation part.old key reallocation) }
    ensures memory_alone { IsOk (held_reallocation part.old key reallocation)
        → IfErr result (λ fault. fault ≡ StoreFault.Memory) }
{
    match part.hold_reallocation(key, reallocation) {
        Ok(()) => Ok(()),
        Err(fault) => {
            if fault.refusal == Refusal::Memory {
                Err(StoreFault::Memory)
            } else {
                Err(StoreFault::Store)
            }
        }
    }
}
