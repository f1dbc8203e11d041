//! Values of tables as columns.

ghost use Rattle.std.specs.Prelude.{◌≡◌};
ghost use Rattle.hh_keyed_rows.specs.Values.{amounts_columns, file_columns, lead_term_columns, party_columns, position_columns, reading_columns, reallocation_columns, summary_columns, unit_columns};

use crate::amounts::AccountAmounts;
use crate::columned::Columned;
use crate::columns::{Columns, push_column};
use crate::row_fault::RowFault;
use hh_names::{AccessKey, Account, Reading, Reallocation};
use hh_num::{Kwh, NetKwh, Pence, Percent, Ticks, Tlm};
use hh_rows::{DateRange, LeadTerm, PartyRegistration, UnitRegistration};
use hh_runs::Summary;
use hh_store::{KeptFile, Position};
use hh_time::SettlementDate;
use sqlite::types::ValueRef;
use std::alloc::AllocError;

impl Columned for PartyRegistration {
    ghost codec = { party_columns };

    fn to_columns<'a>(&'a self, columns: &mut Vec<ValueRef<'a>>) -> Result<(), AllocError> {
        self.range.to_columns(columns)?;
        self.key.to_columns(columns)
    }

    fn from_columns(columns: &mut Columns<'_>) -> Result<PartyRegistration, RowFault> {
        let range = DateRange::from_columns(columns)?;
        let key = AccessKey::from_columns(columns)?;
        Ok(PartyRegistration { range, key })
    }
}

impl Columned for UnitRegistration {
    ghost codec = { unit_columns };

    fn to_columns<'a>(&'a self, columns: &mut Vec<ValueRef<'a>>) -> Result<(), AllocError> {
        self.lead.to_columns(columns)?;
        self.interconnector.to_columns(columns)?;
        self.range.to_columns(columns)
    }

    fn from_columns(columns: &mut Columns<'_>) -> Result<UnitRegistration, RowFault> {
        let lead = Account::from_columns(columns)?;
        let interconnector = bool::from_columns(columns)?;
        let range = DateRange::from_columns(columns)?;
        Ok(UnitRegistration {
            lead,
            interconnector,
            range,
        })
    }
}

impl Columned for LeadTerm {
    ghost codec = { lead_term_columns };

    fn to_columns<'a>(&'a self, columns: &mut Vec<ValueRef<'a>>) -> Result<(), AllocError> {
        self.lead.to_columns(columns)?;
        self.to.to_columns(columns)
    }

    fn from_columns(columns: &mut Columns<'_>) -> Result<LeadTerm, RowFault> {
        let lead = Account::from_columns(columns)?;
        let to = SettlementDate::from_columns(columns)?;
        Ok(LeadTerm { lead, to })
    }
}

impl Columned for Reading {
    ghost codec = { reading_columns };

    fn to_columns<'a>(&'a self, columns: &mut Vec<ValueRef<'a>>) -> Result<(), AllocError> {
        self.metered.to_columns(columns)?;
        self.tlm.to_columns(columns)?;
        self.balancing.to_columns(columns)
    }

    fn from_columns(columns: &mut Columns<'_>) -> Result<Reading, RowFault> {
        let metered = Kwh::from_columns(columns)?;
        let tlm = Tlm::from_columns(columns)?;
        let balancing = Kwh::from_columns(columns)?;
        Ok(Reading {
            metered,
            tlm,
            balancing,
        })
    }
}

impl Columned for Reallocation {
    ghost codec = { reallocation_columns };

    fn to_columns<'a>(&'a self, columns: &mut Vec<ValueRef<'a>>) -> Result<(), AllocError> {
        self.percent.to_columns(columns)?;
        self.fixed.to_columns(columns)
    }

    fn from_columns(columns: &mut Columns<'_>) -> Result<Reallocation, RowFault> {
        let percent = Percent::from_columns(columns)?;
        let fixed = Kwh::from_columns(columns)?;
        Ok(Reallocation { percent, fixed })
    }
}

impl Columned for Summary {
    ghost codec = { summary_columns };

    fn to_columns<'a>(&'a self, columns: &mut Vec<ValueRef<'a>>) -> Result<(), AllocError> {
        self.periods.to_columns(columns)?;
        self.accounts.to_columns(columns)?;
        self.residual.to_columns(columns)?;
        self.postings.to_columns(columns)
    }

    fn from_columns(columns: &mut Columns<'_>) -> Result<Summary, RowFault> {
        let periods = u8::from_columns(columns)?;
        let accounts = u16::from_columns(columns)?;
        let residual = Pence::from_columns(columns)?;
        let postings = u16::from_columns(columns)?;
        Ok(Summary {
            periods,
            accounts,
            residual,
            postings,
        })
    }
}

impl Columned for AccountAmounts {
    ghost codec = { amounts_columns };

    fn to_columns<'a>(&'a self, columns: &mut Vec<ValueRef<'a>>) -> Result<(), AllocError> {
        self.credited.to_columns(columns)?;
        self.balancing.to_columns(columns)?;
        self.contracts.to_columns(columns)?;
        self.imbalance.to_columns(columns)?;
        self.charge.to_columns(columns)?;
        self.share.to_columns(columns)
    }

    fn from_columns(columns: &mut Columns<'_>) -> Result<AccountAmounts, RowFault> {
        let credited = Ticks::from_columns(columns)?;
        let balancing = Ticks::from_columns(columns)?;
        let contracts = Ticks::from_columns(columns)?;
        let imbalance = Ticks::from_columns(columns)?;
        let charge = Pence::from_columns(columns)?;
        let share = Pence::from_columns(columns)?;
        Ok(AccountAmounts {
            credited,
            balancing,
            contracts,
            imbalance,
            charge,
            share,
        })
    }
}

impl Columned for KeptFile {
    ghost codec = { file_columns };

    fn to_columns<'a>(&'a self, columns: &mut Vec<ValueRef<'a>>) -> Result<(), AllocError> {
        push_column(columns, ValueRef::Blob(self.body()))?;
        push_column(columns, ValueRef::Int(i64::from(self.applied())))?;
        push_column(columns, ValueRef::Int(i64::from(self.late())))
    }

    fn from_columns(columns: &mut Columns<'_>) -> Result<KeptFile, RowFault> {
        let body = columns.next_body()?;
        let applied = u32::from_columns(columns)?;
        let late = u32::from_columns(columns)?;
        Ok(KeptFile::new(body, applied, late))
    }
}

impl Columned for Position {
    ghost codec = { position_columns };

    fn to_columns<'a>(&'a self, columns: &mut Vec<ValueRef<'a>>) -> Result<(), AllocError> {
        let (kwh, lost) = match self {
            Position::Known(net) => (net.units(), 0),
            Position::Lost => (0, 1),
        };
        push_column(columns, ValueRef::Int(kwh))?;
        push_column(columns, ValueRef::Int(lost))
    }

    fn from_columns(columns: &mut Columns<'_>) -> Result<Position, RowFault> {
        let net = NetKwh::from_columns(columns)?;
        let is_lost = bool::from_columns(columns)?;
        if !is_lost {
            Ok(Position::Known(net))
        } else if net.units() == 0 {
            Ok(Position::Lost)
        } else {
            Err(RowFault::Store)
        }
    }
}
