//! A period of the market's size.

ghost use Rattle.std.specs.Prelude.{◌≤◌, ◌<◌, unsigned_abs};

use hh_calc::{Contracts, PeriodData, Subsidiary, UnitData};
use hh_names::{Account, Contract, Counterparties, Reading, Reallocation, UnitId};
use hh_num::{Kwh, Percent, Price, Tlm};
use std::alloc::Global;

/// Two to each of 400 parties.
const ACCOUNTS: u32 = 800;

const UNITS: u32 = 2_000;

const CONTRACTS: u32 = 400;

/// The four accounts of a unit are this many places apart, so that they are different.
const STEP: u32 = 199;

/// A linear congruential generator of 64 bits.
#[derive(Drop)]
struct Draw {
    state: u64,
}

impl Draw {
    /// The next number, below a limit.
    fn below(&mut self, limit: u32) -> u32
        requires { 0 < limit }
        ensures { result < limit }
    {
        self.state = self
            .state
            .wrapping_mul(6_364_136_223_846_793_005)
            .wrapping_add(1_442_695_040_888_963_407);
        (self.state >> 33) as u32 % limit
    }

    /// The next number, of at most this size.
    fn signed(&mut self, most: u32) -> i64
        requires { most ≤ 1_000_000 }
        ensures { unsigned_abs result ≤ most }
    {
        i64::from(self.below(2 * most + 1)) - i64::from(most)
    }
}

/// The period. It is always the same.
pub(crate) fn generated_period(alloc: Global) -> Option<PeriodData> {
    let mut draw = Draw { state: 1 };
    let accounts = accounts(alloc)?;
    let units = units(alloc, &accounts, &mut draw)?;
    let contracts = contracts(alloc, &accounts, &mut draw)?;
    Some(PeriodData::new(
        accounts,
        units,
        Contracts::Rows(contracts),
        Price::new(7_345_678)?,
    ))
}

/// All accounts, in account order.
fn accounts(alloc: Global) -> Option<Vec<Account>> {
    let mut accounts = Vec::new(alloc);
    for place in 0..ACCOUNTS {
        let side = if place % 2 == 0 { 'P' } else { 'C' };
        let text = format!(in alloc; "PARTY{:04}-{side}", place / 2).ok()?;
        accounts.push(Account::read(text.as_bytes())?).ok()?;
    }
    Some(accounts)
}

fn units(alloc: Global, accounts: &[Account], draw: &mut Draw) -> Option<Vec<UnitData>> {
    let mut units = Vec::new(alloc);
    for number in 0..UNITS {
        units.push(unit(alloc, accounts, number, draw)?).ok()?;
    }
    Some(units)
}

/// A unit. Its lead account is searched for by its key, as in a period of the store. One unit in ten is an
/// interconnector's.
fn unit(alloc: Global, accounts: &[Account], number: u32, draw: &mut Draw) -> Option<UnitData> {
    let id = format!(in alloc; "T_UNIT-{number}").ok()?;
    let lead = draw.below(ACCOUNTS);
    let interconnector = draw.below(10) == 0;
    let reading = Reading {
        metered: Kwh::new(draw.signed(500_000))?,
        tlm: Tlm::new(9_700_000 + i64::from(draw.below(600_000)))?,
        balancing: Kwh::new(draw.signed(5_000))?,
    };
    let data = UnitData::new(
        UnitId::read(id.as_bytes())?,
        account_at(accounts, lead)?,
        interconnector,
        reading,
        subsidiaries(alloc, accounts, lead, draw)?,
    );
    Some(data.with_lead_near(lead as usize))
}

/// The three subsidiaries of a unit whose lead account is at this place.
fn subsidiaries(
    alloc: Global,
    accounts: &[Account],
    lead: u32,
    draw: &mut Draw,
) -> Option<Vec<Subsidiary>> {
    let mut subsidiaries = Vec::new(alloc);
    for number in 1..4 {
        let subsidiary = Subsidiary {
            account: account_at(accounts, lead.wrapping_add(number * STEP))?,
            reallocation: Reallocation {
                percent: Percent::new(i64::from(draw.below(3_000_000)))?,
                fixed: Kwh::new(draw.signed(1_000))?,
            },
        };
        subsidiaries.push(subsidiary).ok()?;
    }
    Some(subsidiaries)
}

fn contracts(alloc: Global, accounts: &[Account], draw: &mut Draw) -> Option<Vec<Contract>> {
    let mut contracts = Vec::new(alloc);
    for _ in 0..CONTRACTS {
        let seller = draw.below(ACCOUNTS);
        let buyer = seller.wrapping_add(1 + draw.below(ACCOUNTS - 1));
        let contract = Contract {
            counterparties: Counterparties {
                seller: account_at(accounts, seller)?,
                buyer: account_at(accounts, buyer)?,
            },
            volume: Kwh::new(draw.signed(90_000))?,
        };
        contracts.push(contract).ok()?;
    }
    Some(contracts)
}

/// The account at a place. After the last place the first follows.
fn account_at(accounts: &[Account], place: u32) -> Option<Account> {
    accounts.get((place % ACCOUNTS) as usize).copied()
}
