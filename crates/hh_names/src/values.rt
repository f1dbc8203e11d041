//! The market's values that files, registers and settlement share.

ghost use Rattle.std.specs.Prelude.{◌≡◌};
ghost use Rattle.hh_names.specs.CounterpartyRule.{counterparty_refusals};
ghost use Rattle.hh_names.specs.Faults.{first_met};

use crate::account::Account;
use crate::fault::Refusal;
use hh_num::{Kwh, Percent, Tlm};

/// What a unit has in a Settlement Period: its metered volume (positive for export), its loss
/// multiplier and its balancing volume (Section T in shape).
#[derive(Clone, Copy, Debug, PartialEq, Eq)]
pub struct Reading {
    pub metered: Kwh,
    pub tlm: Tlm,
    pub balancing: Kwh,
}

/// The two accounts of a contract: the energy account that sells, and the one that buys (Section P).
#[derive(Clone, Copy, Debug, PartialEq, Eq)]
pub struct Counterparties {
    pub seller: Account,
    pub buyer: Account,
}

impl Counterparties {
    /// Why a row with these counterparties is refused, if it is. `known` has those of its reference, if
    /// it is known. 35: both are one account. 36: the reference has others. 35 is tested first (Section P
    /// in shape).
    pub fn refusal_beside(self, known: Option<Counterparties>) -> Option<Refusal>
        ensures { result ≡ first_met (counterparty_refusals known self) }
    {
        if self.seller == self.buyer {
            return Some(Refusal::SameAccount);
        }
        match known {
            Some(known) if known != self => Some(Refusal::ReferenceMoved),
            _ => None,
        }
    }
}

/// A contract volume, in kWh. It counts for the seller and against the buyer, and may be negative
/// (Section P).
#[derive(Clone, Copy, Debug, PartialEq, Eq)]
pub struct Contract {
    pub counterparties: Counterparties,
    pub volume: Kwh,
}

/// What a reallocation moves to another account: a percentage of a unit's metered volume less its
/// balancing volume, and a fixed volume (Section P in shape).
#[derive(Clone, Copy, Debug, PartialEq, Eq)]
pub struct Reallocation {
    pub percent: Percent,
    pub fixed: Kwh,
}
