//! The data that a period is settled from.

ghost use Rattle.std.specs.Prelude.{◌≡◌};
ghost use Rattle.hh_calc.specs.Terms.{unit_data, contracts_given, period_data};

use hh_names::{Account, Contract, Reading, Reallocation, UnitId};
use hh_share::{NetKwh, Price};
use std::marker::Model;

/// The place to look at first where none is known. No list has it, so nothing is compared there.
pub(crate) const NOWHERE: usize = usize::MAX;

/// A reallocation in force: what moves from a unit's lead account to a subsidiary account (Section P).
#[derive(Clone, Copy, Debug, PartialEq, Eq)]
pub struct Subsidiary {
    pub account: Account,
    pub reallocation: Reallocation,
}

/// A BM Unit in a period: its lead account, whether it is an interconnector unit, its reading and its
/// subsidiaries.
#[derive(Debug, Drop)]
pub struct UnitData {
    unit: UnitId,
    lead: Account,
    /// The place where the lead account is looked for first among the accounts of the period.
    near: usize,
    interconnector: bool,
    reading: Reading,
    subsidiaries: Vec<Subsidiary>,
}

impl Model for UnitData {
    ghost use Rattle.hh_calc.specs.Terms.{UnitDataView};

    ghost Value = { UnitDataView };

    ghost view = { λ u. record { unit = u.unit; lead = u.lead; interconnector = u.interconnector; reading = u.reading; subsidiaries = u.subsidiaries.items } };
}

impl UnitData {
    /// A unit with its lead account, its reading and its subsidiaries.
    pub fn new(
        unit: UnitId,
        lead: Account,
        interconnector: bool,
        reading: Reading,
        subsidiaries: Vec<Subsidiary>,
    ) -> UnitData
        ensures { result ≡ unit_data unit lead interconnector reading subsidiaries.items }
    {
        UnitData {
            unit,
            lead,
            near: NOWHERE,
            interconnector,
            reading,
            subsidiaries,
        }
    }

    /// The same unit, whose lead account is looked for at this place first among the accounts of the
    /// period. Any place will do: a wrong one only costs time.
    pub fn with_lead_near(self, place: usize) -> UnitData
        ensures { result ≡ self }
    {
        UnitData {
            near: place,
            ..self
        }
    }

    /// Where to look first for its lead account among the accounts of the period.
    pub(crate) fn lead_near(&self) -> usize {
        self.near
    }

    /// The unit's id.
    pub fn unit(&self) -> UnitId
        ensures { result ≡ self.now.unit }
    {
        self.unit
    }

    /// The account of its Lead Party on the side that the unit has.
    pub fn lead(&self) -> Account
        ensures { result ≡ self.now.lead }
    {
        self.lead
    }

    /// Whether it is an interconnector unit. The credits of such a unit weigh nothing.
    pub fn is_interconnector(&self) -> bool
        ensures { result ≡ self.now.interconnector }
    {
        self.interconnector
    }

    /// Its metered volume, loss multiplier and balancing volume.
    pub fn reading(&self) -> Reading
        ensures { result ≡ self.now.reading }
    {
        self.reading
    }

    /// The accounts to which a part of its energy is reallocated.
    pub fn subsidiaries(&self) -> &[Subsidiary]
        ensures { result.now ≡ self.now.subsidiaries }
    {
        &self.subsidiaries
    }
}

/// The contracts of a period: the volumes in force, or the net volume of each account, in account order.
/// Both give the same settlement.
#[derive(Debug, Drop)]
pub enum Contracts {
    Rows(Vec<Contract>),
    Net(Vec<NetKwh>),
}

/// The places where the accounts of a contract's seller and buyer are looked for first among the accounts
/// of a period. Any places will do: wrong ones only cost time.
#[derive(Clone, Copy, Debug)]
pub struct ContractPlaces {
    pub seller: usize,
    pub buyer: usize,
}

impl ContractPlaces {
    /// The places to look at first where none are known.
    pub(crate) const NOWHERE: ContractPlaces = ContractPlaces {
        seller: NOWHERE,
        buyer: NOWHERE,
    };
}

/// A period's accounts, units, contracts and price.
#[derive(Debug, Drop)]
pub struct PeriodData {
    accounts: Vec<Account>,
    units: Vec<UnitData>,
    contracts: Contracts,
    price: Price,
    /// The places where the accounts of the contract rows are looked for first, one row's after another's.
    near: Option<Vec<ContractPlaces>>,
}

impl Model for PeriodData {
    ghost use Rattle.hh_calc.specs.Terms.{contracts_given, PeriodDataView};

    ghost Value = { PeriodDataView };

    ghost view = { λ p. record { accounts = p.accounts.items; units = p.units.items; contracts = contracts_given p.contracts; price = p.price } };
}

impl PeriodData {
    /// A period of these accounts, units, contracts and price.
    pub fn new(
        accounts: Vec<Account>,
        units: Vec<UnitData>,
        contracts: Contracts,
        price: Price,
    ) -> PeriodData
        ensures { let contracts_seen = contracts_given contracts in
            result ≡ period_data accounts.items units.items contracts_seen price }
    {
        PeriodData {
            accounts,
            units,
            contracts,
            price,
            near: None,
        }
    }

    /// The same period, the accounts of whose contract rows are looked for at these places first, one row's
    /// after another's. Any places will do, also too few: wrong ones only cost time.
    pub fn with_contracts_near(self, places: Vec<ContractPlaces>) -> PeriodData
        ensures { result ≡ self }
    {
        PeriodData {
            near: Some(places),
            ..self
        }
    }

    /// Where to look first for the accounts of the contract rows, one row's after another's.
    pub(crate) fn contracts_near(&self) -> &[ContractPlaces] {
        match &self.near {
            Some(places) => places,
            None => &[],
        }
    }

    /// The accounts, in account order.
    pub fn accounts(&self) -> &[Account]
        ensures { result.now ≡ self.now.accounts }
    {
        &self.accounts
    }

    /// The units.
    pub fn units(&self) -> &[UnitData]
        ensures { result.now ≡ self.now.units }
    {
        &self.units
    }

    /// The contract volumes in force, or the net volumes of the accounts.
    pub fn contracts(&self) -> &Contracts
        ensures { contracts_given result.now ≡ self.now.contracts }
    {
        &self.contracts
    }

    /// The price, in 10^-5 pound per MWh.
    pub fn price(&self) -> Price
        ensures { result ≡ self.now.price }
    {
        self.price
    }
}
