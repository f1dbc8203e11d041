//! The rows of the six kinds of file.

use crate::date_range::DateRange;
use crate::keys::{ContractKey, ReallocationKey, UnitPeriod};
use crate::settlement_period::SettlementPeriod;
use hh_names::{AccessKey, Account, Contract, PartyId, Price, Reading, Reallocation, UnitId};
use hh_time::SettlementDate;

/// What is registered of a party: the dates on which it takes part, and the key that it shows
/// (profile).
#[derive(Clone, Copy, Debug, PartialEq, Eq)]
pub struct PartyRegistration {
    pub range: DateRange,
    pub key: AccessKey,
}

/// What is registered of a BM Unit: its lead account, whether it is an interconnector unit, and the
/// dates on which it takes part (profile).
#[derive(Clone, Copy, Debug, PartialEq, Eq)]
pub struct UnitRegistration {
    /// The account of the Lead Party that the unit's side names.
    pub lead: Account,
    pub interconnector: bool,
    pub range: DateRange,
}

/// The account that leads a BM Unit under one of its registrations, and the registration's last date
/// (profile).
#[derive(Clone, Copy, Debug, PartialEq, Eq)]
pub struct LeadTerm {
    pub lead: Account,
    pub to: SettlementDate,
}

/// A row of a file of parties.
#[derive(Clone, Copy, Debug, PartialEq, Eq)]
pub struct PartyRow {
    pub party: PartyId,
    pub registration: PartyRegistration,
}

/// A row of a file of units.
#[derive(Clone, Copy, Debug, PartialEq, Eq)]
pub struct UnitRow {
    pub unit: UnitId,
    pub registration: UnitRegistration,
}

/// A row of a file of meter volumes.
#[derive(Clone, Copy, Debug, PartialEq, Eq)]
pub struct MeterRow {
    pub key: UnitPeriod,
    pub reading: Reading,
}

/// A row of a file of prices.
#[derive(Clone, Copy, Debug, PartialEq, Eq)]
pub struct PriceRow {
    pub at: SettlementPeriod,
    /// The imbalance price, in 10^-5 pound per MWh.
    pub price: Price,
}

/// A row of a file of contracts: a volume that one account sells to another (Section P in shape).
#[derive(Clone, Copy, Debug, PartialEq, Eq)]
pub struct ContractRow {
    pub key: ContractKey,
    pub contract: Contract,
}

/// A row of a file of reallocations (Section P in shape).
#[derive(Clone, Copy, Debug, PartialEq, Eq)]
pub struct ReallocationRow {
    pub key: ReallocationKey,
    pub reallocation: Reallocation,
}

/// A row of a file of any kind.
#[derive(Clone, Copy, Debug, PartialEq, Eq)]
pub enum Row {
    Party(PartyRow),
    Unit(UnitRow),
    Meter(MeterRow),
    Price(PriceRow),
    Contract(ContractRow),
    Reallocation(ReallocationRow),
}
