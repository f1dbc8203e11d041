//! What no clause says and no program shows: net volumes that no office has, and a contract of an account
//! with itself.

use hh_calc::*;
use hh_names::{Account, Contract, Counterparties};
use hh_num::{Kwh, NetKwh, Price};
use std::alloc::Global;
use std::test::Fail;

/// The accounts of two parties, in account order.
fn accounts() -> Option<[Account; 4]> {
    Some([
        Account::read(b"GENCO-P")?,
        Account::read(b"GENCO-C")?,
        Account::read(b"SUPCO-P")?,
        Account::read(b"SUPCO-C")?,
    ])
}

/// Net volumes.
fn nets(kwh: [i64; 5]) -> Option<[NetKwh; 5]> {
    Some([
        NetKwh::new(kwh[0])?,
        NetKwh::new(kwh[1])?,
        NetKwh::new(kwh[2])?,
        NetKwh::new(kwh[3])?,
        NetKwh::new(kwh[4])?,
    ])
}

/// A contract of GENCO-C with itself.
fn own_contract() -> Option<Contract> {
    let own = Account::read(b"GENCO-C")?;
    Some(Contract {
        counterparties: Counterparties {
            seller: own,
            buyer: own,
        },
        volume: Kwh::new(7)?,
    })
}

/// A period with these contracts and nothing else, at a price of 50 pounds.
fn contracts_alone(alloc: Global, contracts: Contracts) -> Result<PeriodData, Fail> {
    let accounts = accounts().ok_or("accounts")?;
    let price = Price::new(5_000_000).ok_or("price")?;
    let accounts = Vec::from_slice(alloc, &accounts)?;
    Ok(PeriodData::new(accounts, Vec::new(alloc), contracts, price))
}

/// Whether a period may be settled of which the first so many of five net volumes are known.
fn may_be_settled(alloc: Global, kwh: [i64; 5], count: usize) -> Result<bool, Fail> {
    let nets = nets(kwh).ok_or("nets")?;
    let known = nets.get(..count).unwrap_or_default();
    let nets = Contracts::Net(Vec::from_slice(alloc, known)?);
    Ok(contracts_alone(alloc, nets)?.is_ready())
}

/// A period, settled, if it may be settled.
fn settled(alloc: Global, period: &PeriodData) -> Result<Option<PeriodResult>, CalcFault> {
    if period.is_ready() {
        Ok(Some(settle_period(alloc, period)?))
    } else {
        Ok(None)
    }
}

/// Whether an account has no contracts, pays nothing and bears nothing.
fn is_idle(row: &AccountRow) -> bool {
    row.contracts.units() == 0 && row.charge.units() == 0 && row.share.units() == 0
}

/// Whether all accounts are idle in a period with one contract.
fn are_idle_by(alloc: Global, contract: Contract) -> Result<bool, Fail> {
    let contracts = Contracts::Rows(Vec::from_slice(alloc, &[contract])?);
    let period = contracts_alone(alloc, contracts)?;
    let result = settled(alloc, &period).ok().flatten();
    Ok(result.is_some_and(|found| found.accounts().iter().all(|row| is_idle(row))))
}

#[test]
fn a_contract_with_itself_changes_nothing(rt: HostRuntime) -> Result<(), Fail> {
    let contract = own_contract().ok_or("contract")?;
    assert!(rt; are_idle_by(rt.alloc(), contract)?);
    Ok(())
}

#[test]
fn nets_stand_one_for_each_account_and_come_to_nothing(rt: HostRuntime) -> Result<(), Fail> {
    let cases = [
        ([0, 0, 0, 0, 0], 4, true),
        ([100_000_000_000, -100_000_000_000, 5, -5, 0], 4, true),
        ([1, 0, 0, 0, 0], 4, false),
        ([1, 0, -1, 0, 0], 3, false),
        ([1, 0, 0, -1, 0], 5, false),
    ];
    for (kwh, count, is_ready) in cases {
        assert_eq!(rt; may_be_settled(rt.alloc(), kwh, count)?, is_ready);
    }
    Ok(())
}
