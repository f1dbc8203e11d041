//! Accounts, Settlement Periods and ranges of dates as columns.

ghost use Rattle.std.specs.Prelude.{◌≡◌};
ghost use Rattle.hh_keyed_rows.specs.Fields.{account_columns, counterparties_columns, range_columns, settlement_period_columns};

use crate::columned::Columned;
use crate::columns::{Columns, push_column};
use crate::row_fault::RowFault;
use hh_names::{Account, Counterparties, PartyId, PeriodNumber, Side};
use hh_rows::{DateRange, SettlementPeriod};
use hh_time::SettlementDate;
use sqlite::types::ValueRef;
use std::alloc::AllocError;

impl Columned for Account {
    ghost codec = { account_columns };

    fn to_columns<'a>(&'a self, columns: &mut Vec<ValueRef<'a>>) -> Result<(), AllocError> {
        self.party.to_columns(columns)?;
        self.side.to_columns(columns)
    }

    fn from_columns(columns: &mut Columns<'_>) -> Result<Account, RowFault> {
        let party = PartyId::from_columns(columns)?;
        let side = Side::from_columns(columns)?;
        Ok(Account { party, side })
    }
}

impl Columned for SettlementPeriod {
    ghost codec = { settlement_period_columns };

    fn to_columns<'a>(&'a self, columns: &mut Vec<ValueRef<'a>>) -> Result<(), AllocError> {
        self.date.to_columns(columns)?;
        self.period.to_columns(columns)
    }

    fn from_columns(columns: &mut Columns<'_>) -> Result<SettlementPeriod, RowFault> {
        let date = SettlementDate::from_columns(columns)?;
        let period = PeriodNumber::from_columns(columns)?;
        Ok(SettlementPeriod { date, period })
    }
}

impl Columned for Counterparties {
    ghost codec = { counterparties_columns };

    fn to_columns<'a>(&'a self, columns: &mut Vec<ValueRef<'a>>) -> Result<(), AllocError> {
        self.seller.to_columns(columns)?;
        self.buyer.to_columns(columns)
    }

    fn from_columns(columns: &mut Columns<'_>) -> Result<Counterparties, RowFault> {
        let seller = Account::from_columns(columns)?;
        let buyer = Account::from_columns(columns)?;
        Ok(Counterparties { seller, buyer })
    }
}

impl Columned for DateRange {
    ghost codec = { range_columns };

    fn to_columns<'a>(&'a self, columns: &mut Vec<ValueRef<'a>>) -> Result<(), AllocError> {
        let (from, to) = self.ends();
        push_column(columns, ValueRef::Int(i64::from(from.number())))?;
        push_column(columns, ValueRef::Int(i64::from(to.number())))
    }

    fn from_columns(columns: &mut Columns<'_>) -> Result<DateRange, RowFault> {
        let from = SettlementDate::from_columns(columns)?;
        let to = SettlementDate::from_columns(columns)?;
        DateRange::new(from, to).ok_or(RowFault::Store)
    }
}
