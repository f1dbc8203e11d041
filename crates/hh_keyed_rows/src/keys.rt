//! Keys of tables as columns.

ghost use Rattle.std.specs.Prelude.{◌≡◌};
ghost use Rattle.hh_keyed_rows.specs.Keys.{contract_key_columns, credit_key_columns, file_key_columns, lead_key_columns, position_key_columns, posting_key_columns, reallocation_key_columns, result_key_columns, run_key_columns, unit_period_columns};

use crate::columned::Columned;
use crate::columns::Columns;
use crate::row_fault::RowFault;
use hh_names::{Account, FileName, PeriodNumber, Reference, UnitId};
use hh_rows::{ContractKey, FileKind, LeadKey, ReallocationKey, SettlementPeriod, UnitPeriod};
use hh_runs::{RunKey, RunKind};
use hh_store::{CreditKey, FileKey, PositionKey, PostingKey, ResultKey};
use hh_time::SettlementDate;
use sqlite::types::ValueRef;
use std::alloc::AllocError;

impl Columned for UnitPeriod {
    ghost codec = { unit_period_columns };

    fn to_columns<'a>(&'a self, columns: &mut Vec<ValueRef<'a>>) -> Result<(), AllocError> {
        self.unit.to_columns(columns)?;
        self.at.to_columns(columns)
    }

    fn from_columns(columns: &mut Columns<'_>) -> Result<UnitPeriod, RowFault> {
        let unit = UnitId::from_columns(columns)?;
        let at = SettlementPeriod::from_columns(columns)?;
        Ok(UnitPeriod { unit, at })
    }
}

impl Columned for LeadKey {
    ghost codec = { lead_key_columns };

    fn to_columns<'a>(&'a self, columns: &mut Vec<ValueRef<'a>>) -> Result<(), AllocError> {
        self.unit.to_columns(columns)?;
        self.from.to_columns(columns)
    }

    fn from_columns(columns: &mut Columns<'_>) -> Result<LeadKey, RowFault> {
        let unit = UnitId::from_columns(columns)?;
        let from = SettlementDate::from_columns(columns)?;
        Ok(LeadKey { unit, from })
    }
}

impl Columned for ContractKey {
    ghost codec = { contract_key_columns };

    fn to_columns<'a>(&'a self, columns: &mut Vec<ValueRef<'a>>) -> Result<(), AllocError> {
        self.reference.to_columns(columns)?;
        self.at.to_columns(columns)
    }

    fn from_columns(columns: &mut Columns<'_>) -> Result<ContractKey, RowFault> {
        let reference = Reference::from_columns(columns)?;
        let at = SettlementPeriod::from_columns(columns)?;
        Ok(ContractKey { reference, at })
    }
}

impl Columned for ReallocationKey {
    ghost codec = { reallocation_key_columns };

    fn to_columns<'a>(&'a self, columns: &mut Vec<ValueRef<'a>>) -> Result<(), AllocError> {
        self.unit_period.unit.to_columns(columns)?;
        self.account.to_columns(columns)?;
        self.unit_period.at.to_columns(columns)
    }

    fn from_columns(columns: &mut Columns<'_>) -> Result<ReallocationKey, RowFault> {
        let unit = UnitId::from_columns(columns)?;
        let account = Account::from_columns(columns)?;
        let at = SettlementPeriod::from_columns(columns)?;
        Ok(ReallocationKey {
            unit_period: UnitPeriod { unit, at },
            account,
        })
    }
}

impl Columned for FileKey {
    ghost codec = { file_key_columns };

    fn to_columns<'a>(&'a self, columns: &mut Vec<ValueRef<'a>>) -> Result<(), AllocError> {
        self.kind.to_columns(columns)?;
        self.name.to_columns(columns)
    }

    fn from_columns(columns: &mut Columns<'_>) -> Result<FileKey, RowFault> {
        let kind = FileKind::from_columns(columns)?;
        let name = FileName::from_columns(columns)?;
        Ok(FileKey { kind, name })
    }
}

impl Columned for RunKey {
    ghost codec = { run_key_columns };

    fn to_columns<'a>(&'a self, columns: &mut Vec<ValueRef<'a>>) -> Result<(), AllocError> {
        self.date.to_columns(columns)?;
        self.kind.to_columns(columns)
    }

    fn from_columns(columns: &mut Columns<'_>) -> Result<RunKey, RowFault> {
        let date = SettlementDate::from_columns(columns)?;
        let kind = RunKind::from_columns(columns)?;
        Ok(RunKey { date, kind })
    }
}

impl Columned for ResultKey {
    ghost codec = { result_key_columns };

    fn to_columns<'a>(&'a self, columns: &mut Vec<ValueRef<'a>>) -> Result<(), AllocError> {
        self.run.to_columns(columns)?;
        self.period.to_columns(columns)?;
        self.account.to_columns(columns)
    }

    fn from_columns(columns: &mut Columns<'_>) -> Result<ResultKey, RowFault> {
        let run = RunKey::from_columns(columns)?;
        let period = PeriodNumber::from_columns(columns)?;
        let account = Account::from_columns(columns)?;
        Ok(ResultKey {
            run,
            period,
            account,
        })
    }
}

impl Columned for CreditKey {
    ghost codec = { credit_key_columns };

    fn to_columns<'a>(&'a self, columns: &mut Vec<ValueRef<'a>>) -> Result<(), AllocError> {
        self.run.to_columns(columns)?;
        self.period.to_columns(columns)?;
        self.unit.to_columns(columns)?;
        self.account.to_columns(columns)
    }

    fn from_columns(columns: &mut Columns<'_>) -> Result<CreditKey, RowFault> {
        let run = RunKey::from_columns(columns)?;
        let period = PeriodNumber::from_columns(columns)?;
        let unit = UnitId::from_columns(columns)?;
        let account = Account::from_columns(columns)?;
        Ok(CreditKey {
            run,
            period,
            unit,
            account,
        })
    }
}

impl Columned for PostingKey {
    ghost codec = { posting_key_columns };

    fn to_columns<'a>(&'a self, columns: &mut Vec<ValueRef<'a>>) -> Result<(), AllocError> {
        self.run.to_columns(columns)?;
        self.account.to_columns(columns)
    }

    fn from_columns(columns: &mut Columns<'_>) -> Result<PostingKey, RowFault> {
        let run = RunKey::from_columns(columns)?;
        let account = Account::from_columns(columns)?;
        Ok(PostingKey { run, account })
    }
}

impl Columned for PositionKey {
    ghost codec = { position_key_columns };

    fn to_columns<'a>(&'a self, columns: &mut Vec<ValueRef<'a>>) -> Result<(), AllocError> {
        self.at.to_columns(columns)?;
        self.account.to_columns(columns)
    }

    fn from_columns(columns: &mut Columns<'_>) -> Result<PositionKey, RowFault> {
        let at = SettlementPeriod::from_columns(columns)?;
        let account = Account::from_columns(columns)?;
        Ok(PositionKey { at, account })
    }
}
