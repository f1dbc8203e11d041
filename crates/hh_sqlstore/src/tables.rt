//! The calls of tables that are kept in a database.

ghost use Rattle.sqlite_trees.specs.Tree.{Trees};
ghost use Rattle.sqlite.specs.Held.{state};
ghost use Rattle.hh_sqlrows.specs.Holds.{TreesHold};
ghost use Rattle.hh_sqlstore.specs.Stores.{IsHonestDisk, content_in};

use crate::changing::{keep_load, keep_run};
use crate::faults::{refuse, refuse_report};
use crate::parts::{contracts_of_account, data_of_day, register_of};
use crate::reporting::{write_balances, write_day_report, write_results};
use crate::rows::{is_key_known, postings_to_account, results_of_run, runs_of_date};
use crate::sql_tables::SqlTables;
use hh_calc::AccountRow;
use hh_devices::Sink;
use hh_names::{Account, Counterparties, FileName, PartyId, PeriodNumber, Reference, UnitId};
use hh_num::Pence;
use hh_rows::{ContractRow, FileKind, PartyRegistration, Row, Settings, UnitRegistration};
use hh_rules::Register;
use hh_runs::{RunKey, RunKind, Summary};
use hh_sqlchanges::{load_effect, rows_of_their_accounts, run_effect};
use hh_sqlparts::{loads_agree, runs_agree};
use hh_sqlrows::select;
use hh_sqlrows::tables::{Files, Parties, References, Units};
use hh_states::FileKey;
use hh_store::{
    DayData, KeptFile, LoadChange, OutputFault, RunChange, StoreFault, Tables, reported_as,
};
use hh_time::{Day, SettlementDate};
use sqlite::Alter;

impl<S: Alter> Tables for SqlTables<S> {
    ghost content = { λ t. content_in S.Store t };

    ghost is_open = { λ t. (state S.Store t.connection).is_open };

    ghost is_honest = { λ t. IsHonestDisk S.Store t };

    ghost Left = { Trees };

    ghost may_leave = { λ t trees. (state S.Store t.connection).may_leave trees };

    ghost holds = { λ trees content. TreesHold trees content };

    ghost refusals = { λ t. t.refusals };

    fn settings(&mut self) -> Result<Settings, StoreFault> {
        Ok(self.settings)
    }

    fn party(&mut self, party: &PartyId) -> Result<Option<PartyRegistration>, StoreFault> {
        match select::<Parties, S>(&mut self.connection, self.alloc, party) {
            Ok(found) => Ok(found),
            Err(fault) => Err(refuse(&mut self.refusals, StoreFault::from(fault))),
        }
    }

    fn unit(&mut self, unit: &UnitId) -> Result<Option<UnitRegistration>, StoreFault> {
        match select::<Units, S>(&mut self.connection, self.alloc, unit) {
            Ok(found) => Ok(found),
            Err(fault) => Err(refuse(&mut self.refusals, StoreFault::from(fault))),
        }
    }

    fn reference(&mut self, reference: &Reference) -> Result<Option<Counterparties>, StoreFault> {
        match select::<References, S>(&mut self.connection, self.alloc, reference) {
            Ok(found) => Ok(found),
            Err(fault) => Err(refuse(&mut self.refusals, StoreFault::from(fault))),
        }
    }

    fn key_known(&mut self, key: &[u8]) -> Result<bool, StoreFault> {
        match is_key_known(&mut self.connection, self.alloc, key) {
            Ok(known) => Ok(known),
            Err(fault) => Err(refuse(&mut self.refusals, StoreFault::from(fault))),
        }
    }

    fn file(&mut self, kind: FileKind, name: &FileName) -> Result<Option<KeptFile>, StoreFault> {
        let key = FileKey { kind, name: *name };
        match select::<Files, S>(&mut self.connection, self.alloc, &key) {
            Ok(found) => Ok(found),
            Err(fault) => Err(refuse(&mut self.refusals, StoreFault::from(fault))),
        }
    }

    fn register(&mut self, rows: &[Row]) -> Result<Register, StoreFault> {
        match register_of(
            &mut self.connection,
            self.alloc,
            self.settings.lead_minutes,
            rows,
        ) {
            Ok(register) => Ok(register),
            Err(fault) => Err(refuse(&mut self.refusals, StoreFault::from(fault))),
        }
    }

    fn contracts(
        &mut self,
        account: &Account,
        date: SettlementDate,
    ) -> Result<Vec<ContractRow>, StoreFault> {
        match contracts_of_account(&mut self.connection, self.alloc, account, date) {
            Ok(rows) => Ok(rows),
            Err(fault) => Err(refuse(&mut self.refusals, StoreFault::from(fault))),
        }
    }

    fn day_data(&mut self, day: &Day) -> Result<DayData, StoreFault> {
        match data_of_day(&mut self.connection, self.alloc, day) {
            Ok(data) => Ok(data),
            Err(fault) => Err(refuse(&mut self.refusals, StoreFault::from(fault))),
        }
    }

    fn runs(&mut self, date: SettlementDate) -> Result<Vec<(RunKind, Summary)>, StoreFault> {
        match runs_of_date(&mut self.connection, self.alloc, date) {
            Ok(runs) => Ok(runs),
            Err(fault) => Err(refuse(&mut self.refusals, StoreFault::from(fault))),
        }
    }

    fn results(&mut self, run: &RunKey) -> Result<Vec<(PeriodNumber, AccountRow)>, StoreFault> {
        match results_of_run(&mut self.connection, self.alloc, run) {
            Ok(rows) => Ok(rows),
            Err(fault) => Err(refuse(&mut self.refusals, StoreFault::from(fault))),
        }
    }

    fn postings(&mut self, account: &Account) -> Result<Vec<(RunKey, Pence)>, StoreFault> {
        match postings_to_account(&mut self.connection, self.alloc, &mut self.posted, account) {
            Ok(rows) => Ok(rows),
            Err(fault) => Err(refuse(&mut self.refusals, StoreFault::from(fault))),
        }
    }

    fn export<O: Sink>(
        &mut self,
        run: &RunKey,
        summary: &Summary,
        out: &mut O,
    ) -> Result<(), OutputFault> {
        let reported = reported_as(run, summary);
        match write_results(&mut self.connection, self.alloc, run, &reported, out) {
            Ok(written) => Ok(written),
            Err(fault) => Err(refuse_report(&mut self.refusals, fault)),
        }
    }

    fn day_report<O: Sink>(
        &mut self,
        run: &RunKey,
        summary: &Summary,
        out: &mut O,
    ) -> Result<(), OutputFault> {
        let reported = reported_as(run, summary);
        match write_day_report(&mut self.connection, self.alloc, run, &reported, out) {
            Ok(written) => Ok(written),
            Err(fault) => Err(refuse_report(&mut self.refusals, fault)),
        }
    }

    fn balances<O: Sink>(&mut self, out: &mut O) -> Result<(), OutputFault> {
        match write_balances(&mut self.connection, self.alloc, out) {
            Ok(written) => Ok(written),
            Err(fault) => Err(refuse_report(&mut self.refusals, fault)),
        }
    }

    fn apply_load(&mut self, change: LoadChange) -> Result<(), StoreFault> {
        // Do nothing, but carry laws for the proof: the load makes the machine's tables, and what is kept
        // beside them agrees with them.
        load_effect();
        loads_agree();
        self.posted = None;
        match keep_load(&mut self.connection, self.alloc, &change) {
            Ok(made) => Ok(made),
            Err(fault) => Err(refuse(&mut self.refusals, StoreFault::from(fault))),
        }
    }

    fn apply_run(&mut self, change: RunChange) -> Result<(), StoreFault> {
        // Do nothing, but carry laws for the proof: each row of a run is for the account of its key, the
        // run makes the machine's tables, and what is kept beside them agrees with them.
        rows_of_their_accounts();
        run_effect();
        runs_agree();
        self.posted = None;
        match keep_run(&mut self.connection, self.alloc, &change) {
            Ok(made) => Ok(made),
            Err(fault) => Err(refuse(&mut self.refusals, StoreFault::from(fault))),
        }
    }

    fn shows_left(&self) {
        let _ = &self.connection;
    }
}
