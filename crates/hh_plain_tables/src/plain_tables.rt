//! The tables of an office, kept in memory.

ghost use Rattle.std.specs.Prelude.{◌≡◌, ◌≢◌, ◌⊎◌, IfErr, IfOk, IsOk, OnErr, OnOk, true};
ghost use Rattle.hh_devices.specs.DeviceChanges.{change};
ghost use Rattle.hh_time.specs.Days.{Midnights};
ghost use Rattle.hh_rules.specs.RegisterView.{ServesFor};
ghost use Rattle.hh_states.specs.Changes.{IsLoadFrom, IsRunFrom, effect_of_load, effect_of_run};
ghost use Rattle.hh_states.specs.Content.{Content, empty_content, tables_of};
ghost use Rattle.hh_states.specs.DaySettlement.{periods_on};
ghost use Rattle.hh_states.specs.Reads.{contracts_in, file_in, is_key_known, party_in, postings_in, reference_in, results_in, runs_in, unit_in, whole_register};
ghost use Rattle.hh_states.specs.Soundness.{AreSound};
ghost use Rattle.hh_states.specs.States.{empty_state};
ghost use Rattle.hh_kept_rows.specs.Crashes.{MakesLoad, MakesRun};
ghost use Rattle.hh_kept_rows.specs.DayReads.{IsDayData};
ghost use Rattle.hh_kept_rows.specs.Outputs.{CountsOutcome, Outputs, balances_in, day_report_with, export_with};
ghost use Rattle.hh_kept_rows.specs.Reached.{AreReached};
ghost use Rattle.hh_kept_rows.specs.StoreFaults.{CountsRefusal};

use crate::changed_tables::{changed_by, take_over};
use crate::kept_runs::KeptRuns;
use hh_calc::AccountRow;
use hh_devices::Sink;
use hh_kept_rows::{
    DayData, KeptFile, KeptRegister, LoadChange, OutputFault, RunChange, StoreFault, Tables,
    sound_states, write_balances_of, write_day_report_of, write_results_of,
};
use hh_names::{Account, Counterparties, FileName, PartyId, PeriodNumber, Reference, UnitId};
use hh_num::Pence;
use hh_rows::{ContractRow, FileKind, PartyRegistration, Row, Settings, UnitRegistration};
use hh_rules::Register;
use hh_runs::{RunKey, RunKind, Summary};
use hh_states::FileKey;
use hh_tables::ListTable;
use hh_time::{Day, SettlementDate};
use std::alloc::Global;
use std::marker::Model;

/// The tables of an office, kept as lists in memory. Reading the settings, a party, a unit, a reference
/// or a key never fails. Reports fail only with `Memory`, or with `Write` if their output fails. `register`
/// fails only with `Memory` if what is registered and in force is sound. All other calls fail only with
/// `Memory`.
#[derive(Drop)]
pub struct PlainTables {
    alloc: Global,
    settings: Settings,
    register: KeptRegister,
    files: ListTable<FileKey, KeptFile>,
    runs: KeptRuns,
}

impl Model for PlainTables {
    ghost use Rattle.std.specs.Prelude.{true};
    ghost use Rattle.hh_states.specs.Content.{Content};

    ghost Value = { Content };

    ghost view = { λ t. record {
      settings = t.settings;
      registered = t.register;
      files = t.files;
      runs = t.runs.runs;
      results = t.runs.results;
      credits = t.runs.credits;
      postings = t.runs.postings;
      is_in_step = true;
    } };
}

impl PlainTables {
    /// The tables of an office with these settings, in which nothing has been accepted. Takes no memory.
    pub fn new(alloc: Global, settings: Settings) -> PlainTables
        ensures empty { result ≡ empty_content settings }
        ensures represents { (midnight : Midnights)
            → result ≡ tables_of midnight (empty_state settings) }
    {
        PlainTables {
            alloc,
            settings,
            register: KeptRegister::new(alloc),
            files: ListTable::new(alloc),
            runs: KeptRuns::new(alloc),
        }
    }
}

impl Tables for PlainTables {
    ghost content = { λ tables. tables };

    ghost is_open = { λ _. true };

    ghost is_honest = { λ _. Unit {0} };

    ghost Left = { Content };

    ghost may_leave = { λ tables left. left ≡ tables };

    ghost holds = { λ left content. left ≡ content };

    ghost refusals = { λ _. 0 };

    fn settings(&mut self) -> Result<Settings, StoreFault>
        ensures value { IfOk result (λ settings. settings ≡ self.old.settings) }
        ensures answers { IsOk result }
        ensures same { self.new ≡ self.old }
    {
        Ok(self.settings)
    }

    fn party(&mut self, party: &PartyId) -> Result<Option<PartyRegistration>, StoreFault>
        ensures value { IfOk result (λ found. found ≡ party_in self.old party.now) }
        ensures answers { IsOk result }
        ensures same { self.new ≡ self.old }
    {
        Ok(self.register.party(party))
    }

    fn unit(&mut self, unit: &UnitId) -> Result<Option<UnitRegistration>, StoreFault>
        ensures value { IfOk result (λ found. found ≡ unit_in self.old unit.now) }
        ensures answers { IsOk result }
        ensures same { self.new ≡ self.old }
    {
        Ok(self.register.unit(unit))
    }

    fn reference(&mut self, reference: &Reference) -> Result<Option<Counterparties>, StoreFault>
        ensures value { IfOk result (λ found. found ≡ reference_in self.old reference.now) }
        ensures answers { IsOk result }
        ensures same { self.new ≡ self.old }
    {
        Ok(self.register.reference(reference))
    }

    fn key_known(&mut self, key: &[u8]) -> Result<bool, StoreFault>
        ensures value { IfOk result (λ known. known ≡ is_key_known self.old key.now) }
        ensures answers { IsOk result }
        ensures same { self.new ≡ self.old }
    {
        Ok(self.register.key_known(key))
    }

    fn file(&mut self, kind: FileKind, name: &FileName) -> Result<Option<KeptFile>, StoreFault>
        ensures value { IfOk result (λ found. found ≡ file_in self.old kind name.now) }
        ensures memory_alone { IfErr result (λ fault. fault ≡ StoreFault.Memory) }
        ensures same { self.new ≡ self.old }
    {
        let key = FileKey { kind, name: *name };
        match self.files.find(&key) {
            Some(file) => Ok(Some(file.copy()?)),
            None => Ok(None),
        }
    }

    fn register(&mut self, rows: &[Row]) -> Result<Register, StoreFault>
        ensures serves { IfOk result (ServesFor rows.now (whole_register self.old)) }
        ensures memory_alone { AreSound self.old.registered
            → IfErr result (λ fault. fault ≡ StoreFault.Memory) }
        ensures refusals_counted { AreReached self.old → CountsRefusal result 0 0 }
        ensures same { self.new ≡ self.old }
    {
        // A law for the proof: what is registered in a reached state is sound. The call does nothing.
        sound_states();
        self.register
            .register_for(self.alloc, self.settings.lead_minutes, rows)
    }

    fn contracts(
        &mut self,
        account: &Account,
        date: SettlementDate,
    ) -> Result<Vec<ContractRow>, StoreFault>
        ensures value { IfOk result (λ rows. rows.items ≡ contracts_in self.old account.now date) }
        ensures memory_alone { IfErr result (λ fault. fault ≡ StoreFault.Memory) }
        ensures same { self.new ≡ self.old }
    {
        Ok(self.register.contracts(self.alloc, account, date)?)
    }

    fn day_data(&mut self, day: &Day) -> Result<DayData, StoreFault>
        ensures value { IfOk result (IsDayData self.old.registered
            (periods_on day.now.date day.now.count)) }
        ensures memory_alone { IfErr result (λ fault. fault ≡ StoreFault.Memory) }
        ensures same { self.new ≡ self.old }
    {
        Ok(self.register.day_data(self.alloc, day)?)
    }

    fn runs(&mut self, date: SettlementDate) -> Result<Vec<(RunKind, Summary)>, StoreFault>
        ensures value { IfOk result (λ runs. runs.items ≡ runs_in self.old date) }
        ensures memory_alone { IfErr result (λ fault. fault ≡ StoreFault.Memory) }
        ensures same { self.new ≡ self.old }
    {
        Ok(self.runs.runs_on(self.alloc, date)?)
    }

    fn results(&mut self, run: &RunKey) -> Result<Vec<(PeriodNumber, AccountRow)>, StoreFault>
        ensures value { IfOk result (λ rows. rows.items ≡ results_in self.old run.now) }
        ensures memory_alone { IfErr result (λ fault. fault ≡ StoreFault.Memory) }
        ensures same { self.new ≡ self.old }
    {
        Ok(self.runs.results_of(self.alloc, run)?)
    }

    fn postings(&mut self, account: &Account) -> Result<Vec<(RunKey, Pence)>, StoreFault>
        ensures value { IfOk result (λ rows. rows.items ≡ postings_in self.old account.now) }
        ensures memory_alone { IfErr result (λ fault. fault ≡ StoreFault.Memory) }
        ensures same { self.new ≡ self.old }
    {
        Ok(self.runs.postings_to(self.alloc, account)?)
    }

    fn export<S: Sink>(
        &mut self,
        run: &RunKey,
        summary: &Summary,
        out: &mut S,
    ) -> Result<(), OutputFault>
        ensures writes { Outputs (change S.taken S.failures out.old out.new)
            (export_with self.old run.now summary.now) result }
        ensures counted { CountsOutcome (change S.taken S.failures out.old out.new) result }
        ensures never_store { IfErr result (λ fault. fault ≢ OutputFault.Store) }
        ensures same { self.new ≡ self.old }
    {
        let rows = self.runs.results_of(self.alloc, run)?;
        write_results_of(self.alloc, run, summary, &rows, out)
    }

    fn day_report<S: Sink>(
        &mut self,
        run: &RunKey,
        summary: &Summary,
        out: &mut S,
    ) -> Result<(), OutputFault>
        ensures writes { Outputs (change S.taken S.failures out.old out.new)
            (day_report_with self.old run.now summary.now) result }
        ensures counted { CountsOutcome (change S.taken S.failures out.old out.new) result }
        ensures never_store { IfErr result (λ fault. fault ≢ OutputFault.Store) }
        ensures same { self.new ≡ self.old }
    {
        let rows = self.runs.results_of(self.alloc, run)?;
        write_day_report_of(self.alloc, run, summary, &rows, out)
    }

    fn balances<S: Sink>(&mut self, out: &mut S) -> Result<(), OutputFault>
        ensures writes { Outputs (change S.taken S.failures out.old out.new)
            (balances_in self.old) result }
        ensures counted { CountsOutcome (change S.taken S.failures out.old out.new) result }
        ensures never_store { IfErr result (λ fault. fault ≢ OutputFault.Store) }
        ensures same { self.new ≡ self.old }
    {
        write_balances_of(
            self.alloc,
            self.register.parties.rows(),
            self.runs.postings(),
            out,
        )
    }

    fn apply_load(&mut self, change: LoadChange) -> Result<(), StoreFault>
        ensures ok { (midnight : Midnights) → IsLoadFrom midnight self.old change
            → OnOk result (self.new ≡ effect_of_load change self.old) }
        ensures err { OnErr result (self.new ≡ self.old) }
        ensures crash { (left : Content) → left ≡ self.new
            → (left ≡ self.old) ⊎ ((content : Content) × (left ≡ content)
            × MakesLoad change self.old content) }
        ensures memory_alone { IfErr result (λ fault. fault ≡ StoreFault.Memory) }
    {
        let changed = changed_by(self.alloc, &self.register, &change)?;
        self.files.put_row(change.key(), change.into_file())?;
        take_over(&mut self.register, changed);
        Ok(())
    }

    fn apply_run(&mut self, change: RunChange) -> Result<(), StoreFault>
        ensures ok { (midnight : Midnights) → IsRunFrom midnight self.old change
            → OnOk result (self.new ≡ effect_of_run change self.old) }
        ensures err { OnErr result (self.new ≡ self.old) }
        ensures crash { (left : Content) → left ≡ self.new
            → (left ≡ self.old) ⊎ ((content : Content) × (left ≡ content)
            × MakesRun change self.old content) }
        ensures memory_alone { IfErr result (λ fault. fault ≡ StoreFault.Memory) }
    {
        self.runs.put(self.alloc, change)?;
        Ok(())
    }

    fn shows_left(&self) {}
}
