//! Why a row is refused: the rules of each kind, in the order of their numbers.

ghost use Rattle.std.specs.Prelude.{◌≡◌, ◌∷◌, [], true, false, None, IfOk, IfErr, OnOk};
ghost use Rattle.hh_names.specs.declared.fault.Refusal.TheVariants.{ShrinksRange, UnitMoved};
ghost use Rattle.hh_names.specs.Accounts.{is_same_account};
ghost use Rattle.hh_names.specs.Faults.{first_met};
ghost use Rattle.hh_registrations.specs.Registrations.{is_widening, registration_on};
ghost use Rattle.hh_rules.specs.steps.Changes.{change_refusals};
ghost use Rattle.hh_rules.specs.steps.Effects.{HasRoomFor};
ghost use Rattle.hh_rules.specs.RegisterView.{judged_at, refusal_at, tables_in, IsLeastFault, IsLeastRefusal, JudgesAsWhole};
ghost use Rattle.hh_rules.specs.steps.RegisterView.{IsKeptIn, IsRefusedFor, TellsInTime};
ghost use Rattle.hh_rules.specs.Refusals.{contract_refusals, is_shrunk, is_some_that, is_unit_moved, last_lead, meter_refusals, party_refusals, passes_hundred, price_refusals, reallocation_refusals, refusals_of, unit_refusals};

use crate::last_asked::LastAsked;
use crate::register::Register;
use crate::timing::Timing;
use hh_names::{Account, Fault, Refusal, UnitId};
use hh_rows::{
    ContractRow, LeadKey, LeadTerm, MeterRow, PartyRow, ReallocationRow, Row, SettlementDate,
    UnitRegistration, UnitRow,
};
use jiff::tz::TimeZone;

/// How many parties there may be.
const MOST_PARTIES: u32 = 400;

/// How many units there may be.
const MOST_UNITS: u32 = 2000;

/// 100 percent, in 10^-5 percent.
const HUNDRED_PERCENT: i64 = 10_000_000;

impl Register {
    /// Whether a row that comes at a moment, in seconds since 1970-01-01T00:00:00Z, would be accepted. If
    /// not, the refusal is the one of 30 to 42 with the least number that applies (profile). Takes no
    /// memory.
    pub fn check_row(&self, zone: &TimeZone<'_>, moment: i64, row: &Row) -> Result<(), Fault>
        ensures answer { result ≡ judged_at zone.now self.now moment row.now }
        ensures least { IfErr result (IsLeastFault zone.now self.now moment row.now) }
        ensures part { JudgesAsWhole zone.now self.now moment row.now result }
    {
        let mut last = LastAsked::nothing();
        match self.judge(&mut last, zone, moment, row) {
            Ok(_) => Ok(()),
            Err(refusal) => Err(Fault::of(refusal)),
        }
    }

    /// Whether a row that would be accepted comes in time, or why it would be refused. Keeps what was asked
    /// for last.
    pub(crate) fn judge(
        &self,
        last: &mut LastAsked,
        zone: &TimeZone<'_>,
        moment: i64,
        row: &Row,
    ) -> Result<bool, Refusal>
        requires { IsKeptIn zone.now last.old.day }
        ensures kept { IsKeptIn zone.now last.new.day }
        ensures accepted { OnOk result (refusal_at zone.now self.now moment row.now ≡ None) }
        ensures in_time { IfOk result (TellsInTime zone.now self.now moment row.now) }
        ensures room { IfOk result (λ in_time. HasRoomFor in_time row.now self.now.standing) }
        ensures refused { IfErr result (IsRefusedFor zone.now self.now moment row.now) }
        ensures least { IfErr result (IsLeastRefusal zone.now self.now moment row.now) }
    {
        let timing = self.timing_of(&mut last.day, zone, moment, row);
        match self.refusal_of(&mut last.unit, timing, row) {
            Some(refusal) => Err(refusal),
            None => Ok(timing.comes_in_time()),
        }
    }

    /// Why a row is refused, if it is. Keeps the place of the unit of a reading.
    fn refusal_of(&self, last: &mut usize, timing: Timing, row: &Row) -> Option<Refusal>
        ensures { result ≡ first_met (refusals_of self.now.standing timing row.now) }
    {
        match row {
            Row::Party(row) => self.refusal_of_party(row),
            Row::Unit(row) => self.refusal_of_unit(row),
            Row::Meter(row) => self.refusal_of_meter(last, timing, row),
            Row::Price(_) => refusal_of_price(timing),
            Row::Contract(row) => self.refusal_of_contract(timing, row),
            Row::Reallocation(row) => self.refusal_of_reallocation(timing, row),
        }
    }

    /// Why a row of parties is refused, if it is.
    fn refusal_of_party(&self, row: &PartyRow) -> Option<Refusal>
        ensures { result ≡ first_met (party_refusals self.now.standing row.now) }
    {
        match self.party(&row.party) {
            Some(known) if !known.range.is_inside(row.registration.range) => {
                Some(Refusal::ShrinksRange)
            }
            None if MOST_PARTIES <= self.party_count() => Some(Refusal::TooMany),
            _ => None,
        }
    }

    /// Why a row of units is refused, if it is.
    fn refusal_of_unit(&self, row: &UnitRow) -> Option<Refusal>
        ensures { result ≡ first_met (unit_refusals self.now.standing row.now) }
    {
        let Some(lead_party) = self.party(&row.registration.lead.party) else {
            return Some(Refusal::UnknownParty);
        };
        let new = row.registration;
        if !new.range.is_inside(lead_party.range) {
            return Some(Refusal::NotEffective);
        }
        match self.unit(&row.unit) {
            Some(known) => self.refusal_of_change(row, &known),
            None if MOST_UNITS <= self.unit_count() => Some(Refusal::TooMany),
            None => None,
        }
    }

    /// Why a row of a known unit is refused, if it is.
    fn refusal_of_change(&self, row: &UnitRow, known: &UnitRegistration) -> Option<Refusal>
        ensures { result ≡ first_met (change_refusals self.now.standing row.now known.now
            (last_lead (tables_in self.now).leads row.now.unit known.now)) }
    {
        let last = self.last_lead(row.unit, known);
        if last.1.lead == row.registration.lead {
            refusal_of_widening(&row.registration, known, &last)
        } else {
            self.refusal_of_succession(row, known, &last)
        }
    }

    /// The last registration of a known unit. If it has none, the one that its own row would make.
    fn last_lead(&self, unit: UnitId, known: &UnitRegistration) -> (LeadKey, LeadTerm)
        ensures { result ≡ last_lead (tables_in self.now).leads unit known.now }
    {
        let (from, to) = known.range.ends();
        let lead = known.lead;
        let own = (LeadKey { unit, from }, LeadTerm { lead, to });
        self.registrations.last(&unit).unwrap_or(own)
    }

    /// Why a row by which another account succeeds a unit's last lead account is refused, if it is.
    fn refusal_of_succession(
        &self,
        row: &UnitRow,
        known: &UnitRegistration,
        last: &(LeadKey, LeadTerm),
    ) -> Option<Refusal>
        requires { is_widening last.now row.now.registration ≡ false }
        ensures { result
            ≡ first_met (change_refusals self.now.standing row.now known.now last.now) }
    {
        let new = row.registration;
        if new.range.to() < known.range.to() {
            return Some(Refusal::ShrinksRange);
        }
        if known.interconnector != new.interconnector {
            return Some(Refusal::UnitMoved);
        }
        let Some(before) = last.0.from.last_before(new.range.from()) else {
            return Some(Refusal::UnitMoved);
        };
        if known.range.to() < before {
            return Some(Refusal::UnitMoved);
        }
        if self.is_reallocated_to_lead(row, before) {
            return Some(Refusal::LeadIsSubsidiary);
        }
        None
    }

    /// Why a row of meter volumes is refused, if it is. Keeps the place of its unit.
    fn refusal_of_meter(&self, last: &mut usize, timing: Timing, row: &MeterRow) -> Option<Refusal>
        ensures { result ≡ first_met (meter_refusals self.now.standing timing row.now) }
    {
        let Some(unit) = self.unit_behind(last, &row.key.unit) else {
            return Some(Refusal::UnknownUnit);
        };
        if !unit.range.holds(row.key.at.date) {
            return Some(Refusal::NotEffective);
        }
        if timing.lacks_period() {
            return Some(Refusal::NoSuchPeriod);
        }
        None
    }

    /// Why a row of contracts is refused, if it is.
    fn refusal_of_contract(&self, timing: Timing, row: &ContractRow) -> Option<Refusal>
        ensures { result ≡ first_met (contract_refusals self.now.standing timing row.now) }
    {
        let counterparties = row.contract.counterparties;
        let seller = self.party(&counterparties.seller.party);
        let buyer = self.party(&counterparties.buyer.party);
        let (Some(seller), Some(buyer)) = (seller, buyer) else {
            return Some(Refusal::UnknownParty);
        };
        if !seller.range.holds(row.key.at.date) || !buyer.range.holds(row.key.at.date) {
            return Some(Refusal::NotEffective);
        }
        if timing.lacks_period() {
            return Some(Refusal::NoSuchPeriod);
        }
        counterparties.refusal_beside(self.reference(&row.key.reference))
    }

    /// Why a row of reallocations is refused, if it is.
    fn refusal_of_reallocation(&self, timing: Timing, row: &ReallocationRow) -> Option<Refusal>
        ensures { result ≡ first_met (reallocation_refusals self.now.standing timing row.now) }
    {
        let Some(party) = self.party(&row.key.account.party) else {
            return Some(Refusal::UnknownParty);
        };
        let Some(unit) = self.unit(&row.key.unit_period.unit) else {
            return Some(Refusal::UnknownUnit);
        };
        let date = row.key.unit_period.at.date;
        if !unit.range.holds(date) || !party.range.holds(date) {
            return Some(Refusal::NotEffective);
        }
        if timing.lacks_period() {
            return Some(Refusal::NoSuchPeriod);
        }
        if self.is_led_by(&row.key.unit_period.unit, date, &row.key.account) {
            return Some(Refusal::OwnLead);
        }
        if timing.comes_in_time() && self.passes_hundred(row) {
            return Some(Refusal::OverHundred);
        }
        None
    }

    /// Whether an account leads a unit on a date.
    fn is_led_by(&self, unit: &UnitId, date: SettlementDate, account: &Account) -> bool
        ensures { result ≡ is_some_that (λ e. is_same_account e.1.lead account.now)
            (registration_on (tables_in self.now).leads unit.now date) }
    {
        match self.lead_on(unit, date) {
            Some(lead) => lead == *account,
            None => false,
        }
    }

    /// Whether more than 100 percent would be in force with the row.
    pub(crate) fn passes_hundred(&self, row: &ReallocationRow) -> bool
        ensures { result ≡ passes_hundred self.now.standing row.now }
    {
        HUNDRED_PERCENT < self.percent_of_others(&row.key) + row.reallocation.percent.units()
    }
}

/// Why a row that widens a unit's last registration is refused, if it is.
fn refusal_of_widening(
    new: &UnitRegistration,
    known: &UnitRegistration,
    last: &(LeadKey, LeadTerm),
) -> Option<Refusal>
    requires { is_widening last.now new.now ≡ true }
    ensures { result ≡ first_met ((ShrinksRange, is_shrunk known.now last.now new.now)
        ∷ (UnitMoved, is_unit_moved known.now last.now new.now) ∷ []) }
{
    let from = new.range.from();
    let last_from = last.0.from;
    if new.range.to() < known.range.to() || last_from < from {
        return Some(Refusal::ShrinksRange);
    }
    let has_several = known.range.from() < last_from;
    if known.interconnector != new.interconnector || (from < last_from && has_several) {
        return Some(Refusal::UnitMoved);
    }
    None
}

/// Why a row of prices is refused, if it is.
fn refusal_of_price(timing: Timing) -> Option<Refusal>
    ensures { result ≡ first_met (price_refusals timing) }
{
    if timing.lacks_period() {
        Some(Refusal::NoSuchPeriod)
    } else {
        None
    }
}
