//! The keys of meter, contract and reallocation rows, and of the registrations of units.

use crate::settlement_period::SettlementPeriod;
use hh_names::{Account, Reference, UnitId};
use hh_time::SettlementDate;

/// The key of a meter row: a BM Unit in a Settlement Period (profile). Ordered by the bytes of the
/// unit's id, then by Settlement Period.
#[derive(Clone, Copy, Debug, PartialEq, Eq, PartialOrd, Ord)]
pub struct UnitPeriod {
    pub unit: UnitId,
    pub at: SettlementPeriod,
}

/// The key of a contract row: a reference in a Settlement Period (Section P in shape). Ordered by the
/// bytes of the reference, then by Settlement Period.
#[derive(Clone, Copy, Debug, PartialEq, Eq, PartialOrd, Ord)]
pub struct ContractKey {
    pub reference: Reference,
    pub at: SettlementPeriod,
}

/// The key of a reallocation row: a BM Unit in a Settlement Period, and the account that a part of its
/// energy goes to (Section P in shape). Ordered by unit and Settlement Period, then by account.
#[derive(Clone, Copy, Debug, PartialEq, Eq, PartialOrd, Ord)]
pub struct ReallocationKey {
    pub unit_period: UnitPeriod,
    pub account: Account,
}

/// The key of a registration: a BM Unit, and the first date on which an account leads it (profile).
/// Ordered by the bytes of the unit's id, then by date.
#[derive(Clone, Copy, Debug, PartialEq, Eq, PartialOrd, Ord)]
pub struct LeadKey {
    pub unit: UnitId,
    pub from: SettlementDate,
}
