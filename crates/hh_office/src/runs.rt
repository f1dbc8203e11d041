//! Runs that are ordered.

ghost use Rattle.std.specs.Prelude.{◌≡◌, find, option_map, IfErr, IfOk, IsTrue, OnErr, OnOk};
ghost use Rattle.std.specs.Ordering.{eq_by_cmp};
ghost use Rattle.hh_time.specs.Days.{is_over, period_count};
ghost use Rattle.hh_time.specs.Zone.{midnight_in};
ghost use Rattle.hh_day.specs.RunLimits.{FitsRun};
ghost use Rattle.hh_runs.specs.RunKinds.{run_kind_cmp};
ghost use Rattle.hh_requests.specs.declared.reply.Reply.TheVariants.{Ran};
ghost use Rattle.hh_states.specs.DaySettlement.{periods_on};
ghost use Rattle.hh_states.specs.Reads.{runs_in};
ghost use Rattle.hh_states.specs.Steps.{missing_meter_fault, period_fault};
ghost use Rattle.hh_store.specs.Crashes.{AddsNothing, AddsOnly};
ghost use Rattle.hh_store.specs.Reached.{AreReached};
ghost use Rattle.hh_store.specs.StoreFaults.{CountsRefusal};
ghost use Rattle.hh_office.specs.Crashes.{IfReplied, MadeInEachState};
ghost use Rattle.hh_office.specs.Refusals.{CountsReply, IsElsewhere, RepresentsSome};
ghost use Rattle.hh_office.specs.steps.Crashes.{IfTold, IsMadeContent, IsRunContent};
ghost use Rattle.hh_office.specs.steps.Refusals.{CountsAnswer};
ghost use Rattle.hh_office.specs.Promises.{RefusalLeaves};
ghost use Rattle.hh_office.specs.steps.Promises.{FollowsMachine, reply_of};
ghost use Rattle.hh_office.specs.steps.Reads.{latest_key};
ghost use Rattle.hh_office.specs.Runs.{run};
ghost use Rattle.hh_office.specs.steps.Settling.{IsEarly, IsNext, IsOverDay, Lacks, LacksNothing, IsRunMade, RefusesIn, SettlesIn, TellsOrder, WritesRun, rows_before};
ghost use Rattle.hh_office.specs.Views.{IsSure, midnight_of};
ghost use Rattle.jiff.specs.Words.{plain_zone};

use crate::enquiries::{kinds_of, latest_of};
use crate::office::Office;
use hh_calc::AccountRow;
use hh_day::{
    SettledDay, SettledPeriod, kept_kinds_of_dates, kept_summaries, periods_ready, run_change,
    run_effect, runs_fit, settle_day, terms_ready, writes_the_run,
};
use hh_names::{Fault, PeriodNumber, Refusal};
use hh_requests::Reply;
use hh_rows::{SettlementPeriod, UnitPeriod};
use hh_runs::{NextRun, RunKey, RunKind, Summary, next_kind};
use hh_store::{PeriodState, RunChange, StoreFault, Tables};
use hh_time::{Day, SettlementDate};
use jiff::tz::TimeZone;
use std::alloc::Global;

impl<'z, T: Tables> Office<'z, T> {
    /// What becomes of a run that is ordered.
    pub(crate) fn run(&mut self, moment: i64, key: RunKey) -> Result<Reply, Fault>
        ensures makes { IsSure T.is_open self.new
            → FollowsMachine self.old.seen self.new.seen result (λ midnight s.
            run midnight s moment key) }
        ensures untouched { IsSure T.is_open self.new
            → RefusalLeaves self.old.seen self.new.seen (reply_of result) }
        ensures sure { IsSure T.is_open self.new → IsSure T.is_open self.old }
        ensures crash { AddsOnly T.is_honest T.is_open T.may_leave T.holds
            self.old.tables self.new.tables (IfReplied (reply_of result))
            (MadeInEachState self.old.seen (λ midnight s. run midnight s moment key)) }
        ensures refusals_counted { IsSure T.is_open self.new → RepresentsSome self.old.seen
            → CountsReply (reply_of result)
            (T.refusals self.old.tables) (T.refusals self.new.tables) }
    {
        // Do nothing, but carry laws for the proof: the tables contain the machine's runs.
        kept_summaries();
        kept_kinds_of_dates();
        let runs = self.runs_of(key.date)?;
        match order_of(self.alloc, &runs, key.kind)? {
            Some(summary) => Ok(Reply::Ran { run: key, summary }),
            None => self.new_run(moment, key, latest_of(key.date, &runs)),
        }
    }

    /// The runs of a date, in the order of their kinds.
    pub(crate) fn runs_of(
        &mut self,
        date: SettlementDate,
    ) -> Result<Vec<(RunKind, Summary)>, StoreFault>
        ensures value { IsSure T.is_open self.new
            → IfOk result (λ runs. runs.items ≡ runs_in self.old.seen.content date) }
        ensures same { IsSure T.is_open self.new → self.new.seen ≡ self.old.seen }
        ensures crash { AddsNothing T.is_honest T.is_open T.may_leave
            self.old.tables self.new.tables (OnOk result) }
        ensures refusals_counted { IsSure T.is_open self.new → AreReached self.old.seen.content
            → CountsRefusal result (T.refusals self.old.tables) (T.refusals self.new.tables) }
        ensures sure { IsSure T.is_open self.new → IsSure T.is_open self.old }
    {
        self.tables.runs(date)
    }

    /// What becomes of a run that does not exist and may come next on its date. `former` is the latest run
    /// of that date.
    fn new_run(&mut self, moment: i64, key: RunKey, former: Option<RunKey>) -> Result<Reply, Fault>
        requires next { IsSure T.is_open self.old → IsNext self.old.seen.content key }
        requires former { IsSure T.is_open self.old
            → former ≡ latest_key key.date (runs_in self.old.seen.content key.date) }
        ensures makes { IsSure T.is_open self.new
            → FollowsMachine self.old.seen self.new.seen result (λ midnight s.
            run midnight s moment key) }
        ensures untouched { IsSure T.is_open self.new
            → RefusalLeaves self.old.seen self.new.seen (reply_of result) }
        ensures sure { IsSure T.is_open self.new → IsSure T.is_open self.old }
        ensures crash { AddsOnly T.is_honest T.is_open T.may_leave T.holds
            self.old.tables self.new.tables (IfReplied (reply_of result))
            (MadeInEachState self.old.seen (λ midnight s. run midnight s moment key)) }
        ensures refusals_counted { IsSure T.is_open self.new → RepresentsSome self.old.seen
            → CountsReply (reply_of result)
            (T.refusals self.old.tables) (T.refusals self.new.tables) }
    {
        // Do nothing, but carry laws for the proof: the tables contain the machine's runs, and what is
        // written for a run is what the machine writes, and fits the tables.
        kept_summaries();
        kept_kinds_of_dates();
        writes_the_run();
        runs_fit();
        let settled = self.settle(moment, key.date)?;
        Ok(self.make_run(key, &settled, former)?)
    }

    /// Makes a run from settled Settlement Periods. `former` is the latest run of its date. The reply is
    /// made before the run is written.
    fn make_run(
        &mut self,
        key: RunKey,
        day: &[SettledPeriod],
        former: Option<RunKey>,
    ) -> Result<Reply, StoreFault>
        ensures made { IsSure T.is_open self.new
            → IfOk result (IsRunMade self.old.seen self.new.seen key day.now former) }
        ensures same { IsSure T.is_open self.new → OnErr result (self.new.seen ≡ self.old.seen) }
        ensures sure { IsSure T.is_open self.new → IsSure T.is_open self.old }
        ensures crash { AddsOnly T.is_honest T.is_open T.may_leave T.holds
            self.old.tables self.new.tables (OnOk result)
            (IsMadeContent self.old.seen key day.now former) }
        ensures refusals_counted { IsSure T.is_open self.new → AreReached self.old.seen.content
            → FitsRun key day.now (rows_before self.old.seen.content former)
            → CountsRefusal result (T.refusals self.old.tables) (T.refusals self.new.tables) }
    {
        let rows = self.rows_before(former)?;
        let change = run_change(self.alloc, key, day, &rows)?;
        let reply = ran(&change);
        self.commit_run(change)?;
        Ok(reply)
    }

    /// The Settlement Periods of a date, settled from what is in force. Refused with 52 if the date is not
    /// over, with 53 or 54 if a price or a reading is missing, and with 55 if a figure passes a limit.
    fn settle(&mut self, moment: i64, date: SettlementDate) -> Result<Vec<SettledPeriod>, Fault>
        ensures settled { IsSure T.is_open self.new
            → IfOk result (λ day. SettlesIn self.old.seen moment date day.items) }
        ensures refused { IsSure T.is_open self.new
            → IfErr result (RefusesIn self.old.seen moment date) }
        ensures same { IsSure T.is_open self.new → self.new.seen ≡ self.old.seen }
        ensures sure { IsSure T.is_open self.new → IsSure T.is_open self.old }
        ensures crash { AddsNothing T.is_honest T.is_open T.may_leave
            self.old.tables self.new.tables (IfTold result) }
        ensures refusals_counted { IsSure T.is_open self.new → AreReached self.old.seen.content
            → CountsAnswer result (T.refusals self.old.tables) (T.refusals self.new.tables) }
    {
        // Do nothing, but carry laws for the proof: the terms of each period fit together, and the period
        // may be settled from them.
        periods_ready();
        terms_ready();
        let day = day_over(&self.zone, moment, date)?;
        let states = self.periods_of(&day)?;
        match settle_day(self.alloc, &day, &states)? {
            SettledDay::Settled(periods) => Ok(periods),
            SettledDay::TooLarge(at) => Err(period_fault(Refusal::TooLarge, &at)),
        }
    }

    /// The terms from which each Settlement Period of a day is settled, or its result if it is settled
    /// already.
    fn periods_of(&mut self, day: &Day) -> Result<Vec<PeriodState>, Fault>
        ensures states { IsSure T.is_open self.new → IsTrue self.old.seen.content.is_in_step
            → IfOk result (λ states. LacksNothing self.old.seen.content.registered
            (periods_on day.now.date day.now.count) states.items) }
        ensures lacking { IsSure T.is_open self.new → IsTrue self.old.seen.content.is_in_step
            → IfErr result (Lacks self.old.seen.content.registered
            (periods_on day.now.date day.now.count)) }
        ensures same { IsSure T.is_open self.new → self.new.seen ≡ self.old.seen }
        ensures sure { IsSure T.is_open self.new → IsSure T.is_open self.old }
        ensures crash { AddsNothing T.is_honest T.is_open T.may_leave
            self.old.tables self.new.tables (IfTold result) }
        ensures refusals_counted { IsSure T.is_open self.new → AreReached self.old.seen.content
            → CountsAnswer result (T.refusals self.old.tables) (T.refusals self.new.tables) }
    {
        let found = self.tables.day_data(day)?;
        match (found.missing_price, found.missing_meter) {
            (Some(at), _) => Err(period_fault(Refusal::MissingPrice, &at)),
            (None, Some(key)) => Err(missing_meter_fault(&key)),
            (None, None) => Ok(found.periods),
        }
    }

    /// The rows of the accounts in a run, or none if there is no run.
    fn rows_before(
        &mut self,
        run: Option<RunKey>,
    ) -> Result<Vec<(PeriodNumber, AccountRow)>, StoreFault>
        ensures value { IsSure T.is_open self.new
            → IfOk result (λ rows. rows.items ≡ rows_before self.old.seen.content run) }
        ensures same { IsSure T.is_open self.new → self.new.seen ≡ self.old.seen }
        ensures crash { AddsNothing T.is_honest T.is_open T.may_leave
            self.old.tables self.new.tables (OnOk result) }
        ensures refusals_counted { IsSure T.is_open self.new → AreReached self.old.seen.content
            → CountsRefusal result (T.refusals self.old.tables) (T.refusals self.new.tables) }
        ensures sure { IsSure T.is_open self.new → IsSure T.is_open self.old }
    {
        match run {
            Some(run) => self.rows_of_run(&run),
            None => Ok(Vec::new(self.alloc)),
        }
    }

    /// Writes a run into the tables: the last call of the store that a request makes.
    fn commit_run(&mut self, change: RunChange) -> Result<(), StoreFault>
        ensures written { IsSure T.is_open self.new
            → OnOk result (WritesRun self.old.seen self.new.seen change) }
        ensures same { IsSure T.is_open self.new → OnErr result (self.new.seen ≡ self.old.seen) }
        ensures sure { IsSure T.is_open self.new → IsSure T.is_open self.old }
        ensures crash { AddsOnly T.is_honest T.is_open T.may_leave T.holds
            self.old.tables self.new.tables (OnOk result)
            (IsRunContent self.old.seen change) }
        ensures refusals_counted { IsSure T.is_open self.new → AreReached self.old.seen.content
            → CountsRefusal result (T.refusals self.old.tables) (T.refusals self.new.tables) }
    {
        // Does nothing, but carries a law for the proof: the change makes the machine's tables.
        run_effect();
        self.tables.apply_run(change)
    }
}

/// What is kept of a run among those of its date. It is `None` if the run does not exist and may be made.
fn order_of(
    alloc: Global,
    runs: &[(RunKind, Summary)],
    kind: RunKind,
) -> Result<Option<Summary>, Fault>
    ensures told { TellsOrder runs.now kind result }
    ensures elsewhere { IfErr result IsElsewhere }
{
    let kinds = kinds_of(alloc, runs)?;
    match next_kind(&kinds, kind) {
        Ok(NextRun::Kept) => Ok(summary_of(runs, kind)),
        Ok(NextRun::New) => Ok(None),
        Err(fault) => Err(fault),
    }
}

/// The summary of the run of a kind among those of a date, if it exists.
pub(crate) fn summary_of(runs: &[(RunKind, Summary)], kind: RunKind) -> Option<Summary>
    ensures { result ≡ option_map (λ r. r.1)
        (find (λ r. eq_by_cmp run_kind_cmp kind r.0) runs.now) }
{
    let run = runs.iter().find(|run| is_of(run, kind))?;
    Some(run.1)
}

/// Whether a run is of a kind.
fn is_of(run: &(RunKind, Summary), kind: RunKind) -> bool
    ensures { result ≡ eq_by_cmp run_kind_cmp kind run.now.0 }
{
    kind.cmp(&run.0).is_eq()
}

/// The reply to a run that is made.
fn ran(change: &RunChange) -> Reply
    ensures { result ≡ Ran change.now.key change.now.summary }
{
    Reply::Ran {
        run: change.key(),
        summary: change.summary(),
    }
}

/// The day of a date, which must be over at the moment.
fn day_over(zone: &TimeZone<'_>, moment: i64, date: SettlementDate) -> Result<Day, Fault>
    ensures over { IfOk result (λ day.
        IsOverDay (midnight_in (plain_zone zone.now)) moment date day) }
    ensures early { IfErr result (IsEarly (midnight_in (plain_zone zone.now)) moment date) }
{
    match Day::of(date, zone) {
        Some(day) if day.is_over(moment) => Ok(day),
        _ => Err(Fault::of(Refusal::DayNotOver)),
    }
}

/// A refusal of a Settlement Period.
fn period_fault(why: Refusal, at: &SettlementPeriod) -> Fault
    ensures { result ≡ period_fault why at.now }
{
    Fault {
        period: Some(at.period),
        ..Fault::of(why)
    }
}

/// The refusal if a unit has no reading in a Settlement Period.
fn missing_meter_fault(key: &UnitPeriod) -> Fault
    ensures { result ≡ missing_meter_fault key.now }
{
    Fault {
        unit: Some(key.unit),
        ..period_fault(Refusal::MissingMeter, &key.at)
    }
}
