//! The tables of an office, however they are kept.

ghost use Rattle.std.specs.Prelude.{◌≡◌, ℕ, Bool, IfOk, IsTrue, OnOk, OnErr};
ghost use Rattle.hh_devices.specs.DeviceChanges.{change};
ghost use Rattle.hh_time.specs.Days.{Midnights};
ghost use Rattle.hh_states.specs.Changes.{IsLoadFrom, IsRunFrom, effect_of_load, effect_of_run};
ghost use Rattle.hh_states.specs.Content.{Content};
ghost use Rattle.hh_states.specs.DaySettlement.{periods_on};
ghost use Rattle.hh_states.specs.Reads.{contracts_in, file_in, is_key_known, party_in, postings_in, reference_in, results_in, runs_in, unit_in, whole_register};
ghost use Rattle.hh_states.specs.RegisterView.{ServesFor};
ghost use Rattle.hh_store.specs.Crashes.{AddsNothing, AddsOnly, LeavesContent, MakesLoad, MakesRun};
ghost use Rattle.hh_store.specs.DayReads.{IsDayData};
ghost use Rattle.hh_store.specs.Outputs.{CountsOutcome, Outputs, balances_in, day_report_with, export_with};
ghost use Rattle.hh_store.specs.Reached.{AreReached};
ghost use Rattle.hh_store.specs.StoreFaults.{CountsRefusal, CountsReportRefusal};

use crate::day_data::DayData;
use crate::kept_file::KeptFile;
use crate::load_change::LoadChange;
use crate::output_fault::OutputFault;
use crate::run_change::RunChange;
use crate::store_fault::StoreFault;
use hh_devices::Sink;
use hh_states::{
    Account, AccountRow, ContractRow, Counterparties, FileKind, FileName, PartyId,
    PartyRegistration, Pence, PeriodNumber, Reference, Register, Row, RunKey, RunKind, Settings,
    Summary, UnitId, UnitRegistration,
};
use hh_time::{Day, SettlementDate};

/// The tables of an office. Neither a call that reads nor a call that fails changes them. `Memory` is
/// answered if memory was refused. `Store` is answered if the store refuses for another reason, or has
/// content that no office wrote.
pub trait Tables {
    /// What the tables contain.
    ghost content: { Self → Content };

    /// The tables are open: no fault of a disk has shut them, and no wrong answer of the disk was taken as
    /// true. Tables that are not open never become open again. No call can tell whether they are.
    ghost is_open: { Self → Bool };

    /// Their disk has returned what was written, as far as calls have asked for it.
    ghost is_honest: { Self → Type 0 };

    /// What a crash leaves of tables. For a database these are its trees, as they are found in the file
    /// when it is opened again. For tables in memory this is their content, which says nothing about a
    /// machine.
    ghost Left: { Type 0 };

    /// What a crash may leave, if it comes now.
    ghost may_leave: { Self → Left → Type 0 };

    /// What is left has the tables of an office, with this content.
    ghost holds: { Left → Content → Type 0 };

    /// How often they have refused for another reason than memory. The count never falls. At the greatest
    /// count nothing more is said about it.
    ghost refusals: { Self → ℕ };

    /// The settings that the office was made with.
    fn settings(&mut self) -> Result<Settings, StoreFault>
        ensures value { IsTrue (is_open self.new) → IfOk result (λ settings.
            settings ≡ (content self.old).settings) }
        ensures same { IsTrue (is_open self.new) → content self.new ≡ content self.old }
        ensures stood { IsTrue (is_open self.new) → IsTrue (is_open self.old) }
        ensures crash { AddsNothing is_honest is_open may_leave self.old self.new (OnOk result) }
        ensures refusals_counted { IsTrue (is_open self.new) → AreReached (content self.old)
            → CountsRefusal result (refusals self.old) (refusals self.new) };

    /// What is registered of a party, if it is registered.
    fn party(&mut self, party: &PartyId) -> Result<Option<PartyRegistration>, StoreFault>
        ensures value { IsTrue (is_open self.new) → IfOk result (λ found.
            found ≡ party_in (content self.old) party.now) }
        ensures same { IsTrue (is_open self.new) → content self.new ≡ content self.old }
        ensures stood { IsTrue (is_open self.new) → IsTrue (is_open self.old) }
        ensures crash { AddsNothing is_honest is_open may_leave self.old self.new (OnOk result) }
        ensures refusals_counted { IsTrue (is_open self.new) → AreReached (content self.old)
            → CountsRefusal result (refusals self.old) (refusals self.new) };

    /// What is registered of a unit, if it is registered.
    fn unit(&mut self, unit: &UnitId) -> Result<Option<UnitRegistration>, StoreFault>
        ensures value { IsTrue (is_open self.new) → IfOk result (λ found.
            found ≡ unit_in (content self.old) unit.now) }
        ensures same { IsTrue (is_open self.new) → content self.new ≡ content self.old }
        ensures stood { IsTrue (is_open self.new) → IsTrue (is_open self.old) }
        ensures crash { AddsNothing is_honest is_open may_leave self.old self.new (OnOk result) }
        ensures refusals_counted { IsTrue (is_open self.new) → AreReached (content self.old)
            → CountsRefusal result (refusals self.old) (refusals self.new) };

    /// The seller and the buyer of a reference, if an accepted row has fixed them. The reference's first
    /// accepted row did so (Section P in shape).
    fn reference(&mut self, reference: &Reference) -> Result<Option<Counterparties>, StoreFault>
        ensures value { IsTrue (is_open self.new) → IfOk result (λ found.
            found ≡ reference_in (content self.old) reference.now) }
        ensures same { IsTrue (is_open self.new) → content self.new ≡ content self.old }
        ensures stood { IsTrue (is_open self.new) → IsTrue (is_open self.old) }
        ensures crash { AddsNothing is_honest is_open may_leave self.old self.new (OnOk result) }
        ensures refusals_counted { IsTrue (is_open self.new) → AreReached (content self.old)
            → CountsRefusal result (refusals self.old) (refusals self.new) };

    /// Whether a registered party has the key.
    fn key_known(&mut self, key: &[u8]) -> Result<bool, StoreFault>
        ensures value { IsTrue (is_open self.new) → IfOk result (λ known.
            known ≡ is_key_known (content self.old) key.now) }
        ensures same { IsTrue (is_open self.new) → content self.new ≡ content self.old }
        ensures stood { IsTrue (is_open self.new) → IsTrue (is_open self.old) }
        ensures crash { AddsNothing is_honest is_open may_leave self.old self.new (OnOk result) }
        ensures refusals_counted { IsTrue (is_open self.new) → AreReached (content self.old)
            → CountsRefusal result (refusals self.old) (refusals self.new) };

    /// The accepted file of a kind and name, if there is one.
    fn file(&mut self, kind: FileKind, name: &FileName) -> Result<Option<KeptFile>, StoreFault>
        ensures value { IsTrue (is_open self.new) → IfOk result (λ found.
            found ≡ file_in (content self.old) kind name.now) }
        ensures same { IsTrue (is_open self.new) → content self.new ≡ content self.old }
        ensures stood { IsTrue (is_open self.new) → IsTrue (is_open self.old) }
        ensures crash { AddsNothing is_honest is_open may_leave self.old self.new (OnOk result) }
        ensures refusals_counted { IsTrue (is_open self.new) → AreReached (content self.old)
            → CountsRefusal result (refusals self.old) (refusals self.new) };

    /// A register for these rows. It judges them, and is changed by them, in the same way as a register of
    /// everything that is registered and in force.
    fn register(&mut self, rows: &[Row]) -> Result<Register, StoreFault>
        ensures serves { IsTrue (is_open self.new)
            → IfOk result (ServesFor rows.now (whole_register (content self.old))) }
        ensures same { IsTrue (is_open self.new) → content self.new ≡ content self.old }
        ensures stood { IsTrue (is_open self.new) → IsTrue (is_open self.old) }
        ensures crash { AddsNothing is_honest is_open may_leave self.old self.new (OnOk result) }
        ensures refusals_counted { IsTrue (is_open self.new) → AreReached (content self.old)
            → CountsRefusal result (refusals self.old) (refusals self.new) };

    /// The rows of contracts that are in force on a date and name an account, by Settlement Period,
    /// then by the bytes of their references (Section P in shape).
    fn contracts(
        &mut self,
        account: &Account,
        date: SettlementDate,
    ) -> Result<Vec<ContractRow>, StoreFault>
        ensures value { IsTrue (is_open self.new) → IfOk result (λ rows.
            rows.items ≡ contracts_in (content self.old) account.now date) }
        ensures same { IsTrue (is_open self.new) → content self.new ≡ content self.old }
        ensures stood { IsTrue (is_open self.new) → IsTrue (is_open self.old) }
        ensures crash { AddsNothing is_honest is_open may_leave self.old self.new (OnOk result) }
        ensures refusals_counted { IsTrue (is_open self.new) → AreReached (content self.old)
            → CountsRefusal result (refusals self.old) (refusals self.new) };

    /// What the Settlement Periods of a day are settled from (Section T in shape). It has the first period
    /// that has no price, if there is one. It has the first period in which a unit of the date has no
    /// reading, if there is one, with the first such unit by the bytes of its id. If neither is missing,
    /// it has for each period what that period is settled from. In place of that it may have the settlement
    /// by the date's latest run, if the present rows give the same one (profile).
    fn day_data(&mut self, day: &Day) -> Result<DayData, StoreFault>
        ensures value { IsTrue (is_open self.new) → IsTrue (content self.old).is_in_step
            → IfOk result (IsDayData (content self.old).registered
            (periods_on day.now.date day.now.count)) }
        ensures same { IsTrue (is_open self.new) → content self.new ≡ content self.old }
        ensures stood { IsTrue (is_open self.new) → IsTrue (is_open self.old) }
        ensures crash { AddsNothing is_honest is_open may_leave self.old self.new (OnOk result) }
        ensures refusals_counted { IsTrue (is_open self.new) → AreReached (content self.old)
            → CountsRefusal result (refusals self.old) (refusals self.new) };

    /// The runs of a date with their summaries, in the order of their kinds.
    fn runs(&mut self, date: SettlementDate) -> Result<Vec<(RunKind, Summary)>, StoreFault>
        ensures value { IsTrue (is_open self.new) → IfOk result (λ runs.
            runs.items ≡ runs_in (content self.old) date) }
        ensures same { IsTrue (is_open self.new) → content self.new ≡ content self.old }
        ensures stood { IsTrue (is_open self.new) → IsTrue (is_open self.old) }
        ensures crash { AddsNothing is_honest is_open may_leave self.old self.new (OnOk result) }
        ensures refusals_counted { IsTrue (is_open self.new) → AreReached (content self.old)
            → CountsRefusal result (refusals self.old) (refusals self.new) };

    /// The rows of a run's accounts, by Settlement Period, then by account. There are none if the run does
    /// not exist.
    fn results(&mut self, run: &RunKey) -> Result<Vec<(PeriodNumber, AccountRow)>, StoreFault>
        ensures value { IsTrue (is_open self.new) → IfOk result (λ rows.
            rows.items ≡ results_in (content self.old) run.now) }
        ensures same { IsTrue (is_open self.new) → content self.new ≡ content self.old }
        ensures stood { IsTrue (is_open self.new) → IsTrue (is_open self.old) }
        ensures crash { AddsNothing is_honest is_open may_leave self.old self.new (OnOk result) }
        ensures refusals_counted { IsTrue (is_open self.new) → AreReached (content self.old)
            → CountsRefusal result (refusals self.old) (refusals self.new) };

    /// What the runs have posted to an account, in pence, by the dates of the runs, then by their kinds.
    fn postings(&mut self, account: &Account) -> Result<Vec<(RunKey, Pence)>, StoreFault>
        ensures value { IsTrue (is_open self.new) → IfOk result (λ rows.
            rows.items ≡ postings_in (content self.old) account.now) }
        ensures same { IsTrue (is_open self.new) → content self.new ≡ content self.old }
        ensures stood { IsTrue (is_open self.new) → IsTrue (is_open self.old) }
        ensures crash { AddsNothing is_honest is_open may_leave self.old self.new (OnOk result) }
        ensures refusals_counted { IsTrue (is_open self.new) → AreReached (content self.old)
            → CountsRefusal result (refusals self.old) (refusals self.new) };

    /// Writes the results of a run with this summary as comma-separated values, from its rows in the tables,
    /// in the order of `results`. Writes nothing else. A call that fails may have written a beginning.
    ///
    /// # Errors
    ///
    /// `Memory` if memory was refused. `Store` if the store refuses for another reason, or has content that
    /// no office wrote. `Write` only if the output failed or took nothing in this call.
    fn export<S: Sink>(
        &mut self,
        run: &RunKey,
        summary: &Summary,
        out: &mut S,
    ) -> Result<(), OutputFault>
        ensures writes { IsTrue (is_open self.new)
            → Outputs (change S.taken S.failures out.old out.new)
            (export_with (content self.old) run.now summary.now) result }
        ensures counted { CountsOutcome (change S.taken S.failures out.old out.new) result }
        ensures same { IsTrue (is_open self.new) → content self.new ≡ content self.old }
        ensures stood { IsTrue (is_open self.new) → IsTrue (is_open self.old) }
        ensures crash { AddsNothing is_honest is_open may_leave self.old self.new (OnOk result) }
        ensures refusals_counted { IsTrue (is_open self.new) → AreReached (content self.old)
            → CountsReportRefusal result (refusals self.old) (refusals self.new) };

    /// Writes the day report of a run with this summary, from its rows in the tables. Writes nothing else. A
    /// call that fails may have written a beginning.
    ///
    /// # Errors
    ///
    /// The same as for `export`.
    fn day_report<S: Sink>(
        &mut self,
        run: &RunKey,
        summary: &Summary,
        out: &mut S,
    ) -> Result<(), OutputFault>
        ensures writes { IsTrue (is_open self.new)
            → Outputs (change S.taken S.failures out.old out.new)
            (day_report_with (content self.old) run.now summary.now) result }
        ensures counted { CountsOutcome (change S.taken S.failures out.old out.new) result }
        ensures same { IsTrue (is_open self.new) → content self.new ≡ content self.old }
        ensures stood { IsTrue (is_open self.new) → IsTrue (is_open self.old) }
        ensures crash { AddsNothing is_honest is_open may_leave self.old self.new (OnOk result) }
        ensures refusals_counted { IsTrue (is_open self.new) → AreReached (content self.old)
            → CountsReportRefusal result (refusals self.old) (refusals self.new) };

    /// Writes the balances of both accounts of each registered party, in order, as comma-separated values.
    /// Writes nothing else. A call that fails may have written a beginning. A balance is the sum of all
    /// that runs have posted to the account, in pence, or 0 if nothing was posted (profile).
    ///
    /// # Errors
    ///
    /// The same as for `export`.
    fn balances<S: Sink>(&mut self, out: &mut S) -> Result<(), OutputFault>
        ensures writes { IsTrue (is_open self.new)
            → Outputs (change S.taken S.failures out.old out.new)
            (balances_in (content self.old)) result }
        ensures counted { CountsOutcome (change S.taken S.failures out.old out.new) result }
        ensures same { IsTrue (is_open self.new) → content self.new ≡ content self.old }
        ensures stood { IsTrue (is_open self.new) → IsTrue (is_open self.old) }
        ensures crash { AddsNothing is_honest is_open may_leave self.old self.new (OnOk result) }
        ensures refusals_counted { IsTrue (is_open self.new) → AreReached (content self.old)
            → CountsReportRefusal result (refusals self.old) (refusals self.new) };

    /// Writes what an accepted file changes, whole or not at all. For a change that the machine would not
    /// make, it is only promised that a failure leaves the tables as they were.
    fn apply_load(&mut self, change: LoadChange) -> Result<(), StoreFault>
        ensures ok { IsTrue (is_open self.new)
            → (midnight : Midnights) → IsLoadFrom midnight (content self.old) change
            → OnOk result (content self.new ≡ effect_of_load change (content self.old)) }
        ensures err { IsTrue (is_open self.new)
            → OnErr result (content self.new ≡ content self.old) }
        ensures stood { IsTrue (is_open self.new) → IsTrue (is_open self.old) }
        ensures crash { AddsOnly is_honest is_open may_leave holds self.old self.new (OnOk result)
            (MakesLoad change (content self.old)) }
        ensures refusals_counted { IsTrue (is_open self.new) → AreReached (content self.old)
            → CountsRefusal result (refusals self.old) (refusals self.new) };

    /// Writes what a new run changes, whole or not at all. For a change that the machine would not make, it
    /// is only promised that a failure leaves the tables as they were.
    fn apply_run(&mut self, change: RunChange) -> Result<(), StoreFault>
        ensures ok { IsTrue (is_open self.new)
            → (midnight : Midnights) → IsRunFrom midnight (content self.old) change
            → OnOk result (content self.new ≡ effect_of_run change (content self.old)) }
        ensures err { IsTrue (is_open self.new)
            → OnErr result (content self.new ≡ content self.old) }
        ensures stood { IsTrue (is_open self.new) → IsTrue (is_open self.old) }
        ensures crash { AddsOnly is_honest is_open may_leave holds self.old self.new (OnOk result)
            (MakesRun change (content self.old)) }
        ensures refusals_counted { IsTrue (is_open self.new) → AreReached (content self.old)
            → CountsRefusal result (refusals self.old) (refusals self.new) };

    /// Two facts for proofs: while tables are open, whatever a crash leaves has their content, and there is
    /// something that a crash may leave. The call does nothing.
    fn shows_left(&self)
        ensures holds { LeavesContent is_open may_leave holds self.now (content self.now) }
        ensures some { IsTrue (is_open self.now) → (left : Left) × may_leave self.now left };
}
