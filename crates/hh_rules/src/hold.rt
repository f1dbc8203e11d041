//! Filling the register of a part with rows of the tables of what is registered and in force.

ghost use Rattle.std.specs.Prelude.{◌≡◌, OnOk, OnErr};
ghost use Rattle.hh_names.specs.Faults.{faults, IsOutcomeOrNoMemory};
ghost use Rattle.hh_rules.specs.RegisterView.{held_reallocation, holding_contract, holding_leads, holding_party, holding_price, holding_reading, holding_reallocation, holding_reference, holding_unit};

use crate::register::Register;
use hh_names::{Counterparties, Fault, PartyId, Reading, Reallocation, Reference, Refusal, UnitId};
use hh_registrations::LeadTable;
use hh_rows::{
    ContractKey, Kwh, PartyRegistration, Price, ReallocationKey, ReallocationRow, SettlementPeriod,
    UnitPeriod, UnitRegistration,
};
use std::alloc::AllocError;

impl Register {
    /// Holds what is registered of a party, replacing what it held of it. Doesn't count the party. `Err`
    /// only if memory is refused: the register is then as it was.
    pub fn hold_party(
        &mut self,
        party: PartyId,
        registration: PartyRegistration,
    ) -> Result<(), AllocError>
        ensures ok { OnOk result (self.new ≡ holding_party self.old party registration) }
        ensures err { OnErr result (self.new ≡ self.old) }
    {
        self.parties.put(party, registration)
    }

    /// Holds what is registered of a unit, replacing what it held of it. Doesn't count the unit. `Err`
    /// only if memory is refused: the register is then as it was.
    pub fn hold_unit(
        &mut self,
        unit: UnitId,
        registration: UnitRegistration,
    ) -> Result<(), AllocError>
        ensures ok { OnOk result (self.new ≡ holding_unit self.old unit registration) }
        ensures err { OnErr result (self.new ≡ self.old) }
    {
        self.registrations.hold_unit(unit, registration)
    }

    /// Holds these registrations of units, in the place of those that it held.
    pub fn hold_leads(&mut self, leads: LeadTable)
        ensures { self.new ≡ holding_leads self.old leads }
    {
        self.registrations.hold_leads(leads);
    }

    /// Holds the seller and the buyer of a reference, replacing those that it held. `Err` only if memory
    /// is refused: the register is then as it was.
    pub fn hold_reference(
        &mut self,
        reference: Reference,
        counterparties: Counterparties,
    ) -> Result<(), AllocError>
        ensures ok { OnOk result (self.new ≡ holding_reference self.old reference counterparties) }
        ensures err { OnErr result (self.new ≡ self.old) }
    {
        self.references.put(reference, counterparties)
    }

    /// Holds the reading that counts for a unit in a Settlement Period, replacing the one that it held.
    /// `Err` only if memory is refused: the register is then as it was.
    pub fn hold_reading(&mut self, key: UnitPeriod, reading: Reading) -> Result<(), AllocError>
        ensures ok { OnOk result (self.new ≡ holding_reading self.old key reading) }
        ensures err { OnErr result (self.new ≡ self.old) }
    {
        self.meters.put(key, reading)
    }

    /// Holds the price that counts for a Settlement Period, replacing the one that it held. `Err` only
    /// if memory is refused: the register is then as it was.
    pub fn hold_price(&mut self, at: SettlementPeriod, price: Price) -> Result<(), AllocError>
        ensures ok { OnOk result (self.new ≡ holding_price self.old at price) }
        ensures err { OnErr result (self.new ≡ self.old) }
    {
        self.prices.put(at, price)
    }

    /// Holds the volume in force of a reference in a Settlement Period, replacing the one that it held.
    /// The reference's seller and buyer are held by `hold_reference`. `Err` only if memory is refused: the
    /// register is then as it was.
    pub fn hold_contract(&mut self, key: ContractKey, volume: Kwh) -> Result<(), AllocError>
        ensures ok { OnOk result (self.new ≡ holding_contract self.old key volume) }
        ensures err { OnErr result (self.new ≡ self.old) }
    {
        self.contracts.put(key, volume)
    }

    /// Holds a reallocation in force, replacing the one of its key that it held. Refused with 38 if more
    /// than 100 percent of a unit would be in force, and with 90 if memory is refused. The register is
    /// then as it was.
    pub fn hold_reallocation(
        &mut self,
        key: ReallocationKey,
        reallocation: Reallocation,
    ) -> Result<(), Fault>
        ensures answer { IsOutcomeOrNoMemory faults (λ _. tt) result
            (held_reallocation self.old key reallocation) }
        ensures ok { OnOk result (self.new ≡ holding_reallocation self.old key reallocation) }
        ensures err { OnErr result (self.new ≡ self.old) }
    {
        let row = ReallocationRow { key, reallocation };
        if self.passes_hundred(&row) {
            return Err(Fault::of(Refusal::OverHundred));
        }
        self.put_reallocation(true, row)?;
        Ok(())
    }
}
