//! What is wrong with a row of a file that isn't accepted.

use crate::meanings::refused;
use crate::moments::{DateText, local_day};
use hh_names::{Fault, Refusal, UnitId};
use hh_rows::{ContractRow, PartyRow, ReallocationRow, Row, SettlementPeriod, UnitRow};
use std::fmt;

/// What is wrong with a row that a refusal names, in words of the row.
#[derive(Clone, Copy)]
pub(crate) struct WrongRow {
    /// The row, if it reads.
    pub(crate) row: Option<Row>,
    pub(crate) fault: Fault,
}

impl fmt::Display for WrongRow {
    fn fmt<W: fmt::Write>(&self, f: &mut fmt::Formatter<W>) -> fmt::Result {
        let fault = &self.fault;
        match &self.row {
            Some(Row::Party(row)) => write_party(f, row, fault),
            Some(Row::Unit(row)) => write_unit(f, row, fault),
            Some(Row::Meter(row)) => write_use(f, &row.key.unit, &row.key.at, fault),
            Some(Row::Price(row)) => write_period(f, &row.at, fault),
            Some(Row::Contract(row)) => write_contract(f, row, fault),
            Some(Row::Reallocation(row)) => write_reallocation(f, row, fault),
            None => f.write_str(refused(fault)),
        }
    }
}

fn write_party<W: fmt::Write>(
    f: &mut fmt::Formatter<W>,
    row: &PartyRow,
    fault: &Fault,
) -> fmt::Result {
    let party = row.party.as_str();
    let (from, to) = row.registration.range.ends();
    let (from, to) = (DateText(from), DateText(to));
    match fault.refusal {
        Refusal::ShrinksRange => write!(
            f,
            "the dates from {from} to {to} don't hold all for which party {party} is registered"
        ),
        Refusal::TooMany => write!(f, "party {party} is new, and there are 400 parties already"),
        _ => f.write_str(refused(fault)),
    }
}

fn write_unit<W: fmt::Write>(
    f: &mut fmt::Formatter<W>,
    row: &UnitRow,
    fault: &Fault,
) -> fmt::Result {
    let (unit, lead) = (row.unit.as_str(), row.registration.lead);
    let party = lead.party.as_str();
    let (from, to) = row.registration.range.ends();
    let (from, to) = (DateText(from), DateText(to));
    match fault.refusal {
        Refusal::UnknownParty => write!(f, "party {party} isn't registered"),
        Refusal::NotEffective => {
            write!(
                f,
                "party {party} isn't registered for all dates from {from} to {to}"
            )
        }
        Refusal::ShrinksRange => write!(
            f,
            "the dates from {from} to {to} leave out the last ones of unit {unit}, or the first \
             ones of its last lead account"
        ),
        Refusal::UnitMoved => write!(
            f,
            "unit {unit} has another interconnector mark, or {lead} can't lead it from {from} on: \
             a lead account begins later than the one before it, and leaves out no day"
        ),
        Refusal::LeadIsSubsidiary => write!(
            f,
            "a reallocation in force gives a part of unit {unit} to {lead} on a date from {from} \
             to {to}"
        ),
        Refusal::TooMany => write!(f, "unit {unit} is new, and there are 2000 units already"),
        _ => f.write_str(refused(fault)),
    }
}

/// What is wrong with a row about a unit in a period.
fn write_use<W: fmt::Write>(
    f: &mut fmt::Formatter<W>,
    unit: &UnitId,
    at: &SettlementPeriod,
    fault: &Fault,
) -> fmt::Result {
    let (unit, date) = (unit.as_str(), DateText(at.date));
    match fault.refusal {
        Refusal::UnknownUnit => write!(f, "unit {unit} isn't registered"),
        Refusal::NotEffective => write!(f, "unit {unit} isn't registered for {date}"),
        _ => write_period(f, at, fault),
    }
}

/// What is wrong with a row about a period, by its date.
fn write_period<W: fmt::Write>(
    f: &mut fmt::Formatter<W>,
    at: &SettlementPeriod,
    fault: &Fault,
) -> fmt::Result {
    let (date, period) = (DateText(at.date), at.period.number());
    match (fault.refusal, local_day(at.date)) {
        (Refusal::NoSuchPeriod, Some(day)) => {
            let count = day.count;
            write!(f, "{date} has no period {period}: its last is {count}")
        }
        _ => f.write_str(refused(fault)),
    }
}

fn write_contract<W: fmt::Write>(
    f: &mut fmt::Formatter<W>,
    row: &ContractRow,
    fault: &Fault,
) -> fmt::Result {
    let parties = &row.contract.counterparties;
    let (seller, buyer) = (parties.seller.party.as_str(), parties.buyer.party.as_str());
    let (account, reference) = (parties.seller, row.key.reference.as_str());
    let date = DateText(row.key.at.date);
    match fault.refusal {
        Refusal::UnknownParty => write!(f, "party {seller} or party {buyer} isn't registered"),
        Refusal::NotEffective => {
            write!(
                f,
                "party {seller} or party {buyer} isn't registered for {date}"
            )
        }
        Refusal::SameAccount => write!(f, "{account} is both seller and buyer"),
        Refusal::ReferenceMoved => {
            write!(
                f,
                "the first row of reference {reference} has another seller or buyer"
            )
        }
        _ => write_period(f, &row.key.at, fault),
    }
}

fn write_reallocation<W: fmt::Write>(
    f: &mut fmt::Formatter<W>,
    row: &ReallocationRow,
    fault: &Fault,
) -> fmt::Result {
    let at = &row.key.unit_period.at;
    let (account, unit) = (row.key.account, row.key.unit_period.unit.as_str());
    let (party, date, period) = (
        account.party.as_str(),
        DateText(at.date),
        at.period.number(),
    );
    match fault.refusal {
        Refusal::UnknownParty => write!(f, "party {party} isn't registered"),
        Refusal::NotEffective => {
            write!(
                f,
                "unit {unit} or party {party} isn't registered for {date}"
            )
        }
        Refusal::OwnLead => write!(f, "{account} is the lead account of unit {unit}"),
        Refusal::OverHundred => write!(
            f,
            "with this row more than 100 percent of unit {unit} would be reallocated in period \
             {period} of {date}"
        ),
        _ => write_use(f, &row.key.unit_period.unit, at, fault),
    }
}
