//! The contracts in force of an account on a date.

ghost use Rattle.std.specs.Prelude.{◌≡◌, ◌++◌, filter, filter_map, IfOk, OnOk};
ghost use Rattle.std.specs.List.{flat_map};
ghost use Rattle.hh_states.specs.DaySettlement.{from_one_to};
ghost use Rattle.hh_states.specs.Reads.{contracts_of};
ghost use Rattle.hh_kept_rows.specs.steps.KeptContracts.{contract_on, is_in_period, names};

use crate::kept_register::KeptRegister;
use hh_names::{Account, Contract, Counterparties};
use hh_num::Kwh;
use hh_rows::{ContractKey, ContractRow};
use hh_time::SettlementDate;
use std::alloc::{AllocError, Global};

impl KeptRegister {
    /// The rows of contracts that are in force on a date and name an account, by Settlement Period, then
    /// by the bytes of their references. `Err` only if memory is refused.
    pub fn contracts(
        &self,
        alloc: Global,
        account: &Account,
        date: SettlementDate,
    ) -> Result<Vec<ContractRow>, AllocError>
        ensures { IfOk result (λ rows. rows.items ≡ contracts_of account.now date self.now) }
    {
        let found = self.contracts_on(alloc, account, date)?;
        in_periods(alloc, &found)
    }

    /// The same rows, ordered only by their references.
    fn contracts_on(
        &self,
        alloc: Global,
        account: &Account,
        date: SettlementDate,
    ) -> Result<Vec<ContractRow>, AllocError>
        ensures { IfOk result (λ rows.
            rows.items ≡ filter_map (contract_on self.now account.now date) self.now.contracts) }
    {
        let mut found = Vec::new(alloc);
        for (key, volume) in self.contracts.rows() {
            if let Some(row) = self.contract_on(account, date, *key, *volume) {
                found.push(row)?;
            }
        }
        Ok(found)
    }

    /// The row in force of a contract, if it is of this date and names this account.
    fn contract_on(
        &self,
        account: &Account,
        date: SettlementDate,
        key: ContractKey,
        volume: Kwh,
    ) -> Option<ContractRow>
        ensures { result ≡ contract_on self.now account.now date (key, volume) }
    {
        if key.at.date != date {
            return None;
        }
        let counterparties = self.reference(&key.reference)?;
        if !names(&counterparties, account) {
            return None;
        }
        let contract = Contract {
            counterparties,
            volume,
        };
        Some(ContractRow { key, contract })
    }
}

/// Whether the seller or the buyer is this account.
fn names(counterparties: &Counterparties, account: &Account) -> bool
    ensures { result ≡ names account.now counterparties.now }
{
    counterparties.seller == *account || counterparties.buyer == *account
}

/// Rows by their Settlement Periods, 1 to 50. Those of one period keep their order.
fn in_periods(alloc: Global, rows: &[ContractRow]) -> Result<Vec<ContractRow>, AllocError>
    ensures { IfOk result (λ sorted. sorted.items
        ≡ flat_map (λ period. filter (is_in_period period) rows.now) (from_one_to 50)) }
{
    let mut sorted = Vec::with_capacity(alloc, rows.len())?;
    for before in 0..50 {
        push_period(&mut sorted, rows, before + 1)?;
    }
    Ok(sorted)
}

/// Adds the rows of a Settlement Period.
fn push_period(
    sorted: &mut Vec<ContractRow>,
    rows: &[ContractRow],
    period: u8,
) -> Result<(), AllocError>
    ensures { OnOk result (sorted.new.items ≡ sorted.old.items
        ++ filter (is_in_period period) rows.now) }
{
    for row in rows {
        if row.key.at.period.number() == period {
            sorted.push(*row)?;
        }
    }
    Ok(())
}
