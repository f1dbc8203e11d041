//! The register: parties, units and references, and the rows in force.

ghost use Rattle.std.specs.Prelude.{◌≡◌, ◌<◌, pos, option_map, unwrap_or, true, IfOk, IfErr, OnOk, OnErr};
ghost use Rattle.std.specs.FinMap.{find};
ghost use Rattle.std.specs.List.{list_any};
ghost use Rattle.hh_tables.specs.Tables.{IsTable};
ghost use Rattle.hh_rows.specs.Keys.{contract_key_cmp, reallocation_key_cmp, settlement_period_cmp, unit_period_cmp};
ghost use Rattle.hh_rows.specs.declared.rows.Row.TheVariants as rows;
ghost use Rattle.hh_rows.specs.Ranges.{IsBetween};
ghost use Rattle.hh_names.specs.Accounts.{bytes_cmp};
ghost use Rattle.hh_names.specs.Faults.{faults, IsOutcomeOrNoMemory};
ghost use Rattle.hh_registrations.specs.Registrations.{registration_on};
ghost use Rattle.hh_rules.specs.Effects.{fixes_reference, row_done};
ghost use Rattle.hh_rules.specs.steps.Effects.{HasRoomFor};
ghost use Rattle.hh_rules.specs.Percents.{percent_of_others};
ghost use Rattle.hh_rules.specs.steps.Percents.{percent_in};
ghost use Rattle.hh_rules.specs.Refusals.{is_to_lead_of};
ghost use Rattle.hh_rules.specs.steps.Changes.{is_past};
ghost use Rattle.hh_rules.specs.RegisterView.{after_row, done_at, empty_part, empty_register, judged_at, register_after, tables_in, AddsOneRow, IsLeastFault, JudgesAsWhole, ServesAfter};

use crate::last_asked::LastAsked;
use crate::row_done::RowDone;
use hh_names::{
    Account, Counterparties, Fault, PartyId, PeriodNumber, Reading, Reallocation, Reference, UnitId,
};
use hh_registrations::Registrations;
use hh_rows::{
    ContractKey, ContractRow, Kwh, LeadMinutes, MeterRow, PartyRegistration, PartyRow, Percent,
    Price, PriceRow, ReallocationKey, ReallocationRow, Row, SettlementDate, SettlementPeriod,
    UnitPeriod, UnitRegistration, UnitRow,
};
use hh_tables::{TreeTable, put_both};
use jiff::tz::TimeZone;
use std::alloc::{AllocError, Global};
use std::marker::Model;

/// What rows are judged by and what they change: the parties, units and references, the rows in force,
/// and how many parties and units there are in all.
#[derive(Drop)]
pub struct Register {
    lead_minutes: LeadMinutes,
    party_count: u32,
    unit_count: u32,
    pub(crate) parties: TreeTable<PartyId, PartyRegistration>,
    pub(crate) registrations: Registrations,
    pub(crate) references: TreeTable<Reference, Counterparties>,
    pub(crate) meters: TreeTable<UnitPeriod, Reading>,
    pub(crate) prices: TreeTable<SettlementPeriod, Price>,
    pub(crate) contracts: TreeTable<ContractKey, Kwh>,
    reallocations: TreeTable<ReallocationKey, Reallocation>,
    /// The percentages in force, added up, so that no row needs to go through the others.
    percents: TreeTable<UnitPeriod, Percent>,
}

impl Model for Register {
    ghost use Rattle.hh_rules.specs.Percents.{SumsPercents};
    ghost use Rattle.hh_rules.specs.RegisterView.{RegisterView};

    ghost Value = { RegisterView };

    ghost view = { λ r. record {
      lead_minutes = r.lead_minutes;
      standing = record {
        tables = record {
          parties = r.parties;
          units = r.registrations.units;
          leads = r.registrations.leads;
          references = r.references;
          meters = r.meters;
          prices = r.prices;
          contracts = r.contracts;
          reallocations = r.reallocations;
        };
        party_count = r.party_count;
        unit_count = r.unit_count;
      };
    } };

    ghost invariant = { λ r. SumsPercents r.percents r.reallocations };
}

impl Register {
    /// The register in which nothing is registered or in force. Takes no memory.
    pub fn new(alloc: Global, lead_minutes: LeadMinutes) -> Register
        ensures { result ≡ empty_register lead_minutes }
    {
        Register::part(alloc, lead_minutes, 0, 0)
    }

    /// The register of a part. It counts these numbers of parties and units, but holds none of them yet.
    /// Takes no memory.
    pub fn part(
        alloc: Global,
        lead_minutes: LeadMinutes,
        party_count: u32,
        unit_count: u32,
    ) -> Register
        ensures { result ≡ empty_part lead_minutes party_count unit_count }
    {
        Register {
            lead_minutes,
            party_count,
            unit_count,
            parties: TreeTable::new(alloc),
            registrations: Registrations::new(alloc),
            references: TreeTable::new(alloc),
            meters: TreeTable::new(alloc),
            prices: TreeTable::new(alloc),
            contracts: TreeTable::new(alloc),
            reallocations: TreeTable::new(alloc),
            percents: TreeTable::new(alloc),
        }
    }

    /// How many minutes before a Settlement Period its notifications close.
    pub fn lead_minutes(&self) -> LeadMinutes
        ensures { result ≡ self.now.lead_minutes }
    {
        self.lead_minutes
    }

    /// How many parties there are in all. `apply_row` allows at most 400.
    pub fn party_count(&self) -> u32
        ensures { result ≡ self.now.standing.party_count }
    {
        self.party_count
    }

    /// How many units there are in all. `apply_row` allows at most 2,000.
    pub fn unit_count(&self) -> u32
        ensures { result ≡ self.now.standing.unit_count }
    {
        self.unit_count
    }

    /// What is registered of a party, if it is registered.
    pub fn party(&self, party: &PartyId) -> Option<PartyRegistration>
        ensures { result ≡ find bytes_cmp party.now (tables_in self.now).parties }
    {
        self.parties.get(party)
    }

    /// The account that leads a unit on a date, if one does (profile).
    pub fn lead_on(&self, unit: &UnitId, date: SettlementDate) -> Option<Account>
        ensures { result ≡ option_map (λ e. e.1.lead)
            (registration_on (tables_in self.now).leads unit.now date) }
    {
        self.registrations.registered_lead_on(unit, date)
    }

    /// What is registered of a unit, if it is registered.
    pub fn unit(&self, unit: &UnitId) -> Option<UnitRegistration>
        ensures { result ≡ find bytes_cmp unit.now (tables_in self.now).units }
    {
        self.registrations.unit(unit)
    }

    /// What is registered of a unit, if it is registered. Looks first behind the place that was kept,
    /// because a file's readings mostly name the units in their order. Keeps the unit's place.
    pub(crate) fn unit_behind(&self, last: &mut usize, unit: &UnitId) -> Option<UnitRegistration>
        ensures { result ≡ find bytes_cmp unit.now (tables_in self.now).units }
    {
        *last = self.place_of_unit(last.saturating_add(1), unit);
        self.registrations.units().get_near(*last, unit)
    }

    /// The place of a unit: this one if it is the unit's, or the one where it belongs.
    fn place_of_unit(&self, place: usize, unit: &UnitId) -> usize {
        let units = self.registrations.units();
        match units.rows().get(place) {
            Some(row) if row.0 == *unit => place,
            _ => units.count_below(unit),
        }
    }

    /// The seller and the buyer of a reference, if it is known. Its first row fixed them (Section P in
    /// shape).
    pub fn reference(&self, reference: &Reference) -> Option<Counterparties>
        ensures { result ≡ find bytes_cmp reference.now (tables_in self.now).references }
    {
        self.references.get(reference)
    }

    /// The reading that counts for a unit in a Settlement Period, if there is one.
    pub fn reading(&self, key: &UnitPeriod) -> Option<Reading>
        ensures { result ≡ find unit_period_cmp key.now (tables_in self.now).meters }
    {
        self.meters.get(key)
    }

    /// The price that counts for a Settlement Period, in 10^-5 pound per MWh, if there is one.
    pub fn price(&self, at: &SettlementPeriod) -> Option<Price>
        ensures { result ≡ find settlement_period_cmp at.now (tables_in self.now).prices }
    {
        self.prices.get(at)
    }

    /// The volume in force of a reference in a Settlement Period, in kWh, if a row is in force (Section P
    /// in shape).
    pub fn contract(&self, key: &ContractKey) -> Option<Kwh>
        ensures { result ≡ find contract_key_cmp key.now (tables_in self.now).contracts }
    {
        self.contracts.get(key)
    }

    /// The reallocation in force of a unit to an account in a Settlement Period, if a row is in force
    /// (Section P in shape).
    pub fn reallocation(&self, key: &ReallocationKey) -> Option<Reallocation>
        ensures { result ≡ find reallocation_key_cmp key.now (tables_in self.now).reallocations }
    {
        self.reallocations.get(key)
    }

    /// Accepts a row that comes at a moment, in seconds since 1970-01-01T00:00:00Z, and changes what is
    /// registered or in force (profile). Refuses it with the least number of 30 to 42 that applies, or with
    /// 90 if memory is refused. A refusal leaves the register as it was.
    pub fn apply_row(
        &mut self,
        zone: &TimeZone<'_>,
        moment: i64,
        row: Row,
    ) -> Result<RowDone, Fault>
        ensures judged { IsOutcomeOrNoMemory faults (λ _. tt) result
            (judged_at zone.now self.old moment row) }
        ensures least { IfErr result (IsLeastFault zone.now self.old moment row) }
        ensures applied { OnOk result (self.new ≡ register_after zone.now self.old moment row) }
        ensures done { IfOk result (λ done. done ≡ done_at zone.now self.old moment row) }
        ensures one_more_row { IfOk result (AddsOneRow zone.now self.old moment row self.new) }
        ensures unchanged { OnErr result (self.new ≡ self.old) }
        ensures serves { OnOk result (ServesAfter zone.now self.old moment row self.new) }
    {
        let mut last = LastAsked::nothing();
        let in_time = match self.judge(&mut last, zone, moment, &row) {
            Ok(in_time) => in_time,
            Err(refusal) => return Err(Fault::of(refusal)),
        };
        Ok(self.accept(in_time, row)?)
    }

    /// Makes the changes of an accepted row, and says what became of it.
    fn accept(&mut self, in_time: bool, row: Row) -> Result<RowDone, AllocError>
        requires { HasRoomFor in_time row self.old.standing }
        ensures ok { OnOk result (self.new ≡ after_row in_time row self.old) }
        ensures done { IfOk result (λ done.
            done ≡ row_done in_time (fixes_reference (tables_in self.old) row)) }
        ensures err { OnErr result (self.new ≡ self.old) }
    {
        let fixes_reference = self.fixes_reference(&row);
        self.put_row(in_time, row)?;
        Ok(RowDone::of(in_time, fixes_reference))
    }

    /// Whether a row is the first of its reference, and so fixes its seller and buyer.
    pub(crate) fn fixes_reference(&self, row: &Row) -> bool
        ensures { result ≡ fixes_reference (tables_in self.now) row.now }
    {
        match row {
            Row::Contract(row) => self.reference(&row.key.reference).is_none(),
            _ => false,
        }
    }

    /// The percentage of the key's unit, in 10^-5 percent, that is in force in the key's Settlement
    /// Period for other accounts than the key's.
    pub(crate) fn percent_of_others(&self, key: &ReallocationKey) -> i64
        ensures value { result ≡ percent_of_others key.now (tables_in self.now).reallocations }
        ensures range { IsBetween (pos 0) (pos 10_000_000) result }
        ensures rising { IsTable reallocation_key_cmp (tables_in self.now).reallocations }
    {
        let all = units_of(self.percents.get(&key.unit_period));
        let own = percent_in(self.reallocations.get(key));
        all - own
    }

    /// Whether a reallocation in force of a row's unit, on one of the row's dates, is to the row's lead
    /// account. Goes through the unit's reallocations in force, from the end of `before` on, which is a
    /// date before the row's first.
    pub(crate) fn is_reallocated_to_lead(&self, row: &UnitRow, before: SettlementDate) -> bool
        requires { before < row.now.registration.range.from }
        ensures { result
            ≡ list_any (λ e. is_to_lead_of row.now e.0) (tables_in self.now).reallocations }
    {
        let first = last_key_of(row, before);
        for (key, _) in self.reallocations.rows_from(&first) {
            if is_to_lead_of(row, key) {
                return true;
            }
            if is_past(row, key) {
                return false;
            }
        }
        false
    }

    /// Makes the changes of an accepted row.
    fn put_row(&mut self, in_time: bool, row: Row) -> Result<(), AllocError>
        requires { HasRoomFor in_time row self.old.standing }
        ensures ok { OnOk result (self.new ≡ after_row in_time row self.old) }
        ensures err { OnErr result (self.new ≡ self.old) }
    {
        match row {
            Row::Party(row) => self.put_party(row),
            Row::Unit(row) => self.put_unit(row),
            Row::Meter(row) => self.put_meter(row),
            Row::Price(row) => self.put_price(row),
            Row::Contract(row) => self.put_contract(in_time, row),
            Row::Reallocation(row) => self.put_reallocation(in_time, row),
        }
    }

    /// Registers a new party, or gives a known one a new registration.
    pub(crate) fn put_party(&mut self, row: PartyRow) -> Result<(), AllocError>
        requires { HasRoomFor true (rows.Party row) self.old.standing }
        ensures ok { OnOk result (self.new ≡ after_row true (rows.Party row) self.old) }
        ensures err { OnErr result (self.new ≡ self.old) }
    {
        let is_new = self.parties.get(&row.party).is_none();
        self.parties.put(row.party, row.registration)?;
        if is_new {
            self.party_count += 1;
        }
        Ok(())
    }

    /// Registers a new unit, or changes the registrations of a known one.
    pub(crate) fn put_unit(&mut self, row: UnitRow) -> Result<(), AllocError>
        requires { HasRoomFor true (rows.Unit row) self.old.standing }
        ensures ok { OnOk result (self.new ≡ after_row true (rows.Unit row) self.old) }
        ensures err { OnErr result (self.new ≡ self.old) }
    {
        let is_new = self.registrations.unit(&row.unit).is_none();
        self.registrations.put(&row)?;
        if is_new {
            self.unit_count += 1;
        }
        Ok(())
    }

    /// Puts a reading, replacing that of its key.
    pub(crate) fn put_meter(&mut self, row: MeterRow) -> Result<(), AllocError>
        ensures ok { OnOk result (self.new ≡ after_row true (rows.Meter row) self.old) }
        ensures err { OnErr result (self.new ≡ self.old) }
    {
        self.meters.put(row.key, row.reading)
    }

    /// Puts a price, replacing that of its Settlement Period.
    pub(crate) fn put_price(&mut self, row: PriceRow) -> Result<(), AllocError>
        ensures ok { OnOk result (self.new ≡ after_row true (rows.Price row) self.old) }
        ensures err { OnErr result (self.new ≡ self.old) }
    {
        self.prices.put(row.at, row.price)
    }

    /// Fixes a new reference, and puts a contract that is in time, replacing that of its key.
    pub(crate) fn put_contract(&mut self, in_time: bool, row: ContractRow) -> Result<(), AllocError>
        ensures ok { OnOk result (self.new ≡ after_row in_time (rows.Contract row) self.old) }
        ensures err { OnErr result (self.new ≡ self.old) }
    {
        let ContractRow { key, contract } = row;
        let is_new = self.references.get(&key.reference).is_none();
        let fixed = (key.reference, contract.counterparties);
        let volume = (key, contract.volume);
        match (is_new, in_time) {
            (true, true) => put_both(&mut self.references, fixed, &mut self.contracts, volume),
            (true, false) => self.references.put(fixed.0, fixed.1),
            (false, true) => self.contracts.put(volume.0, volume.1),
            (false, false) => Ok(()),
        }
    }

    /// Puts a reallocation that is in time, replacing that of its key.
    pub(crate) fn put_reallocation(
        &mut self,
        in_time: bool,
        row: ReallocationRow,
    ) -> Result<(), AllocError>
        requires { HasRoomFor in_time (rows.Reallocation row) self.old.standing }
        ensures ok { OnOk result (self.new ≡ after_row in_time (rows.Reallocation row) self.old) }
        ensures err { OnErr result (self.new ≡ self.old) }
    {
        if !in_time {
            return Ok(());
        }
        let ReallocationRow { key, reallocation } = row;
        let sum = Percent::of(self.percent_of_others(&key) + reallocation.percent.units());
        let percent = (key.unit_period, sum);
        let reallocation = (key, reallocation);
        put_both(
            &mut self.percents,
            percent,
            &mut self.reallocations,
            reallocation,
        )
    }
}

/// The last key that a reallocation of a row's unit to its lead account can have on a date.
fn last_key_of(row: &UnitRow, date: SettlementDate) -> ReallocationKey
    ensures unit { result.unit_period.unit ≡ row.now.unit }
    ensures date { result.unit_period.at.date ≡ date }
{
    let Some(period) = PeriodNumber::new(50) else {
        unreachable!();
    };
    ReallocationKey {
        unit_period: UnitPeriod {
            unit: row.unit,
            at: SettlementPeriod { date, period },
        },
        account: row.registration.lead,
    }
}

/// Whether a reallocation of this key is one of a row's unit, on one of the row's dates, to the row's
/// lead account.
#[tactic(auto, using(crate::proofs::WalkLaws::same_units))]
fn is_to_lead_of(row: &UnitRow, key: &ReallocationKey) -> bool
    ensures { result ≡ is_to_lead_of row.now key.now }
{
    key.unit_period.unit == row.unit
        && row.registration.range.holds(key.unit_period.at.date)
        && key.account == row.registration.lead
}

/// Whether a key that isn't below a row's unit comes behind all keys of the unit on the row's dates.
#[tactic(auto, using(crate::proofs::WalkLaws::same_units))]
fn is_past(row: &UnitRow, key: &ReallocationKey) -> bool
    ensures { result ≡ is_past row.now key.now }
{
    key.unit_period.unit != row.unit || row.registration.range.to() < key.unit_period.at.date
}

/// The units of a percentage, 0 if there is none.
fn units_of(percent: Option<Percent>) -> i64
    ensures value { result ≡ unwrap_or percent (pos 0) }
    ensures range { IsBetween (pos 0) (pos 10_000_000) result }
{
    match percent {
        Some(percent) => percent.units(),
        None => 0,
    }
}

/// The percentage of a reallocation, in 10^-5 percent, 0 if there is none.
fn percent_in(reallocation: Option<Reallocation>) -> i64
    ensures value { result ≡ percent_in reallocation }
    ensures range { IsBetween (pos 0) (pos 10_000_000) result }
{
    match reallocation {
        Some(reallocation) => reallocation.percent.units(),
        None => 0,
    }
}
