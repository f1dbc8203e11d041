//! Reports. Only the operator gets them.

ghost use Rattle.std.specs.Prelude.{◌≡◌, IfOk, OnOk};
ghost use Rattle.std.specs.FinMap.{find};
ghost use Rattle.hh_devices.specs.DeviceChanges.{change};
ghost use Rattle.hh_requests.specs.declared.report.Report.TheVariants.{Balances, Day, Results};
ghost use Rattle.hh_states.specs.Runs.{run_key_cmp};
ghost use Rattle.hh_store.specs.Crashes.{AddsNothing};
ghost use Rattle.hh_store.specs.Outputs.{balances_in, day_report_in, export_in};
ghost use Rattle.hh_store.specs.Reached.{AreReached};
ghost use Rattle.hh_store.specs.StoreFaults.{CountsRefusal};
ghost use Rattle.hh_office.specs.Crashes.{IfReported};
ghost use Rattle.hh_office.specs.Refusals.{CountsReportStop};
ghost use Rattle.hh_office.specs.Reports.{CountsReport, Reports, ReportsAs, WritesReport, or_no_run};
ghost use Rattle.hh_office.specs.Views.{IsSure};

use crate::office::Office;
use crate::report::ReportStop;
use crate::report_texts::kept_reports;
use crate::runs::summary_of;
use hh_devices::Sink;
use hh_names::Refusal;
use hh_requests::Report;
use hh_runs::{RunKey, RunKind, Summary};
use hh_store::{StoreFault, Tables};
use hh_time::SettlementDate;

impl<'z, T: Tables> Office<'z, T> {
    /// Writes a report to an output, if the key is the operator's (profile). It writes the text that the
    /// machine's state gives, and nothing else. The office stays as it is.
    ///
    /// # Errors
    ///
    /// Refusal 60 for a key that is not the operator's. Refusal 63 for the operator's key if the run of the
    /// report does not exist. In both cases nothing is written. Refusals 90, if memory is refused, and 91,
    /// if the store refuses, may take their place, or may come after a beginning of the report was written.
    /// `Write` comes only if the output failed or took nothing in this call; a beginning was written then.
    pub fn report<S: Sink>(
        &mut self,
        key: &[u8],
        report: &Report,
        out: &mut S,
    ) -> Result<(), ReportStop>
        ensures reports { IsSure T.is_open self.new
            → Reports (change S.taken S.failures out.old out.new)
            self.old.seen key.now report.now result }
        ensures counted { CountsReport (change S.taken S.failures out.old out.new) result }
        ensures same { IsSure T.is_open self.new → self.new.seen ≡ self.old.seen }
        ensures crash { AddsNothing T.is_honest T.is_open T.may_leave
            self.old.tables self.new.tables (IfReported result) }
        ensures refusals_counted { IsSure T.is_open self.new → AreReached self.old.seen.content
            → CountsReportStop result (T.refusals self.old.tables) (T.refusals self.new.tables) }
        ensures sure { IsSure T.is_open self.new → IsSure T.is_open self.old }
    {
        // Does nothing, but carries a law for the proof: the tables give the reports of the machine.
        kept_reports();
        if !self.is_operator(key)? {
            return Err(ReportStop::of(Refusal::Forbidden));
        }
        match report {
            Report::Day(run) => self.write_day_report(run, out),
            Report::Results(run) => self.write_results(run, out),
            Report::Balances => self.write_balances(out),
        }
    }

    /// Writes the day report of a run, as `report` does.
    ///
    /// # Errors
    ///
    /// As for `report`.
    pub fn report_day<S: Sink>(
        &mut self,
        key: &[u8],
        date: SettlementDate,
        kind: RunKind,
        out: &mut S,
    ) -> Result<(), ReportStop>
        ensures reports { IsSure T.is_open self.new
            → Reports (change S.taken S.failures out.old out.new) self.old.seen key.now
            (Day (record { date = date; kind = kind })) result }
        ensures counted { CountsReport (change S.taken S.failures out.old out.new) result }
        ensures same { IsSure T.is_open self.new → self.new.seen ≡ self.old.seen }
        ensures crash { AddsNothing T.is_honest T.is_open T.may_leave
            self.old.tables self.new.tables (IfReported result) }
        ensures refusals_counted { IsSure T.is_open self.new → AreReached self.old.seen.content
            → CountsReportStop result (T.refusals self.old.tables) (T.refusals self.new.tables) }
        ensures sure { IsSure T.is_open self.new → IsSure T.is_open self.old }
    {
        self.report(key, &Report::Day(RunKey { date, kind }), out)
    }

    /// Writes the results of a run, as `report` does.
    ///
    /// # Errors
    ///
    /// As for `report`.
    pub fn report_results<S: Sink>(
        &mut self,
        key: &[u8],
        date: SettlementDate,
        kind: RunKind,
        out: &mut S,
    ) -> Result<(), ReportStop>
        ensures reports { IsSure T.is_open self.new
            → Reports (change S.taken S.failures out.old out.new) self.old.seen key.now
            (Results (record { date = date; kind = kind })) result }
        ensures counted { CountsReport (change S.taken S.failures out.old out.new) result }
        ensures same { IsSure T.is_open self.new → self.new.seen ≡ self.old.seen }
        ensures crash { AddsNothing T.is_honest T.is_open T.may_leave
            self.old.tables self.new.tables (IfReported result) }
        ensures refusals_counted { IsSure T.is_open self.new → AreReached self.old.seen.content
            → CountsReportStop result (T.refusals self.old.tables) (T.refusals self.new.tables) }
        ensures sure { IsSure T.is_open self.new → IsSure T.is_open self.old }
    {
        self.report(key, &Report::Results(RunKey { date, kind }), out)
    }

    /// Writes the balances of both accounts of every registered party, as `report` does.
    ///
    /// # Errors
    ///
    /// As for `report`, but never refusal 63.
    pub fn report_balances<S: Sink>(&mut self, key: &[u8], out: &mut S) -> Result<(), ReportStop>
        ensures reports { IsSure T.is_open self.new
            → Reports (change S.taken S.failures out.old out.new)
            self.old.seen key.now Balances result }
        ensures counted { CountsReport (change S.taken S.failures out.old out.new) result }
        ensures same { IsSure T.is_open self.new → self.new.seen ≡ self.old.seen }
        ensures crash { AddsNothing T.is_honest T.is_open T.may_leave
            self.old.tables self.new.tables (IfReported result) }
        ensures refusals_counted { IsSure T.is_open self.new → AreReached self.old.seen.content
            → CountsReportStop result (T.refusals self.old.tables) (T.refusals self.new.tables) }
        ensures sure { IsSure T.is_open self.new → IsSure T.is_open self.old }
    {
        self.report(key, &Report::Balances, out)
    }

    /// Writes the day report of a run, or refuses it with 63 if there is no such run.
    fn write_day_report<S: Sink>(&mut self, run: &RunKey, out: &mut S) -> Result<(), ReportStop>
        ensures reports { IsSure T.is_open self.new
            → ReportsAs (change S.taken S.failures out.old out.new)
            (or_no_run (day_report_in self.old.seen.content run.now)) result }
        ensures counted { CountsReport (change S.taken S.failures out.old out.new) result }
        ensures same { IsSure T.is_open self.new → self.new.seen ≡ self.old.seen }
        ensures crash { AddsNothing T.is_honest T.is_open T.may_leave
            self.old.tables self.new.tables (IfReported result) }
        ensures refusals_counted { IsSure T.is_open self.new → AreReached self.old.seen.content
            → CountsReportStop result (T.refusals self.old.tables) (T.refusals self.new.tables) }
        ensures sure { IsSure T.is_open self.new → IsSure T.is_open self.old }
    {
        let Some(summary) = self.kept_run(run)? else {
            return Err(ReportStop::of(Refusal::NoRun));
        };
        Ok(self.tables.day_report(run, &summary, out)?)
    }

    /// Writes the results of a run, or refuses them with 63 if there is no such run.
    fn write_results<S: Sink>(&mut self, run: &RunKey, out: &mut S) -> Result<(), ReportStop>
        ensures reports { IsSure T.is_open self.new
            → ReportsAs (change S.taken S.failures out.old out.new)
            (or_no_run (export_in self.old.seen.content run.now)) result }
        ensures counted { CountsReport (change S.taken S.failures out.old out.new) result }
        ensures same { IsSure T.is_open self.new → self.new.seen ≡ self.old.seen }
        ensures crash { AddsNothing T.is_honest T.is_open T.may_leave
            self.old.tables self.new.tables (IfReported result) }
        ensures refusals_counted { IsSure T.is_open self.new → AreReached self.old.seen.content
            → CountsReportStop result (T.refusals self.old.tables) (T.refusals self.new.tables) }
        ensures sure { IsSure T.is_open self.new → IsSure T.is_open self.old }
    {
        let Some(summary) = self.kept_run(run)? else {
            return Err(ReportStop::of(Refusal::NoRun));
        };
        Ok(self.tables.export(run, &summary, out)?)
    }

    /// Writes the balances of both accounts of every registered party.
    fn write_balances<S: Sink>(&mut self, out: &mut S) -> Result<(), ReportStop>
        ensures writes { IsSure T.is_open self.new
            → WritesReport (change S.taken S.failures out.old out.new)
            (balances_in self.old.seen.content) result }
        ensures counted { CountsReport (change S.taken S.failures out.old out.new) result }
        ensures same { IsSure T.is_open self.new → self.new.seen ≡ self.old.seen }
        ensures crash { AddsNothing T.is_honest T.is_open T.may_leave
            self.old.tables self.new.tables (IfReported result) }
        ensures refusals_counted { IsSure T.is_open self.new → AreReached self.old.seen.content
            → CountsReportStop result (T.refusals self.old.tables) (T.refusals self.new.tables) }
        ensures sure { IsSure T.is_open self.new → IsSure T.is_open self.old }
    {
        Ok(self.tables.balances(out)?)
    }

    /// What is kept of a run, if it exists.
    fn kept_run(&mut self, run: &RunKey) -> Result<Option<Summary>, StoreFault>
        ensures value { IsSure T.is_open self.new → IfOk result (λ found.
            found ≡ find run_key_cmp run.now self.old.seen.content.runs) }
        ensures same { IsSure T.is_open self.new → self.new.seen ≡ self.old.seen }
        ensures crash { AddsNothing T.is_honest T.is_open T.may_leave
            self.old.tables self.new.tables (OnOk result) }
        ensures refusals_counted { IsSure T.is_open self.new → AreReached self.old.seen.content
            → CountsRefusal result (T.refusals self.old.tables) (T.refusals self.new.tables) }
        ensures sure { IsSure T.is_open self.new → IsSure T.is_open self.old }
    {
        let runs = self.runs_of(run.date)?;
        Ok(summary_of(&runs, run.kind))
    }
}
