//! What is registered and in force, as rows in the order of their keys.

ghost use Rattle.std.specs.Prelude.{◌≡◌};
ghost use Rattle.std.specs.FinMap.{find};
ghost use Rattle.hh_names.specs.Accounts.{bytes_cmp};
ghost use Rattle.hh_rules.specs.History.{nothing_registered};
ghost use Rattle.hh_states.specs.Reads.{is_key_known_in};

use hh_names::{Counterparties, PartyId, Reading, Reallocation, Reference, UnitId};
use hh_num::{Kwh, Price};
use hh_registrations::LeadTable;
use hh_rows::{
    ContractKey, PartyRegistration, ReallocationKey, SettlementPeriod, UnitPeriod, UnitRegistration,
};
use hh_tables::ListTable;
use std::alloc::Global;
use std::marker::Model;

/// What is registered and in force, or what a store has selected of it, as lists in the order of their
/// keys. Contracts see the eight tables.
#[derive(Drop)]
pub struct KeptRegister {
    /// The registered parties.
    pub parties: ListTable<PartyId, PartyRegistration>,
    /// The registered units.
    pub units: ListTable<UnitId, UnitRegistration>,
    /// The registrations of units.
    pub leads: LeadTable,
    /// The sellers and the buyers of references.
    pub references: ListTable<Reference, Counterparties>,
    /// The readings that count.
    pub meters: ListTable<UnitPeriod, Reading>,
    /// The prices that count.
    pub prices: ListTable<SettlementPeriod, Price>,
    /// The contract volumes in force.
    pub contracts: ListTable<ContractKey, Kwh>,
    /// The reallocations in force.
    pub reallocations: ListTable<ReallocationKey, Reallocation>,
}

impl Model for KeptRegister {
    ghost use Rattle.hh_rules.specs.History.{Registered};

    ghost Value = { Registered };

    ghost view = { λ r. record {
      parties = r.parties;
      units = r.units;
      leads = r.leads;
      references = r.references;
      meters = r.meters;
      prices = r.prices;
      contracts = r.contracts;
      reallocations = r.reallocations;
    } };
}

impl KeptRegister {
    /// The register in which nothing is registered or in force. Takes no memory.
    pub fn new(alloc: Global) -> KeptRegister
        ensures { result ≡ nothing_registered }
    {
        KeptRegister {
            parties: ListTable::new(alloc),
            units: ListTable::new(alloc),
            leads: LeadTable::new(alloc),
            references: ListTable::new(alloc),
            meters: ListTable::new(alloc),
            prices: ListTable::new(alloc),
            contracts: ListTable::new(alloc),
            reallocations: ListTable::new(alloc),
        }
    }

    /// What is registered of a party, if it is registered.
    pub fn party(&self, party: &PartyId) -> Option<PartyRegistration>
        ensures { result ≡ find bytes_cmp party.now self.now.parties }
    {
        self.parties.get(party)
    }

    /// What is registered of a unit, if it is registered.
    pub fn unit(&self, unit: &UnitId) -> Option<UnitRegistration>
        ensures { result ≡ find bytes_cmp unit.now self.now.units }
    {
        self.units.get(unit)
    }

    /// The seller and the buyer of a reference, if a row has fixed them.
    pub fn reference(&self, reference: &Reference) -> Option<Counterparties>
        ensures { result ≡ find bytes_cmp reference.now self.now.references }
    {
        self.references.get(reference)
    }

    /// Whether a registered party has the key.
    pub fn key_known(&self, key: &[u8]) -> bool
        ensures { result ≡ is_key_known_in self.now key.now }
    {
        self.parties
            .rows()
            .iter()
            .any(|party| party.1.key.as_bytes() == key)
    }
}
