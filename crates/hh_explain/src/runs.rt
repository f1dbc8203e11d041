//! Why a run isn't made, or a report isn't written.

use crate::meanings::refused;
use crate::moments::{DateText, local_day};
use hh_names::{Fault, PeriodNumber, Refusal, UnitId};
use hh_requests::Report;
use hh_runs::RunKey;
use std::alloc::{AllocError, Global};
use std::fmt;

/// Why a run isn't made: its kind and date, and what is wrong. If a reading is missing, the explanation
/// tells how many are missing for the date, if that is known.
pub fn run_refused(
    alloc: Global,
    run: &RunKey,
    fault: &Fault,
    missing: Option<u64>,
) -> Result<String, AllocError> {
    let wrong = WrongRun {
        run: *run,
        fault: *fault,
        missing,
    };
    let (kind, date) = (run.kind.code(), DateText(run.date));
    format!(in alloc; "{kind} of {date}: {wrong}")
}

/// Why a report isn't written: the kind and date of its run, if it has one, and what is wrong.
pub fn report_refused(alloc: Global, report: &Report, fault: &Fault) -> Result<String, AllocError> {
    match report {
        Report::Day(run) | Report::Results(run) => run_refused(alloc, run, fault, None),
        Report::Balances => {
            let meaning = refused(fault);
            format!(in alloc; "balances: {meaning}")
        }
    }
}

/// What is wrong with a run that is refused.
#[derive(Clone, Copy)]
struct WrongRun {
    run: RunKey,
    fault: Fault,
    /// How many readings are missing for the date, if that is known.
    missing: Option<u64>,
}

impl fmt::Display for WrongRun {
    fn fmt<W: fmt::Write>(&self, f: &mut fmt::Formatter<W>) -> fmt::Result {
        match (self.fault.refusal, self.fault.period) {
            (Refusal::DayNotOver, _) => self.write_day_not_over(f),
            (Refusal::MissingPrice, Some(period)) => {
                let number = period.number();
                write!(f, "period {number} has no price")
            }
            (Refusal::MissingMeter, Some(period)) => {
                write_missing(f, self.fault.unit, period)?;
                self.write_count(f)
            }
            (Refusal::TooLarge, Some(period)) => {
                let number = period.number();
                write!(
                    f,
                    "a figure of period {number} passes a limit of settlement"
                )
            }
            _ => f.write_str(refused(&self.fault)),
        }
    }
}

impl WrongRun {
    fn write_day_not_over<W: fmt::Write>(&self, f: &mut fmt::Formatter<W>) -> fmt::Result {
        f.write_str(refused(&self.fault))?;
        match local_day(self.run.date) {
            Some(day) => {
                let end = day.end();
                write!(f, "; it ends at the moment {end}")
            }
            None => Ok(()),
        }
    }

    fn write_count<W: fmt::Write>(&self, f: &mut fmt::Formatter<W>) -> fmt::Result {
        let date = DateText(self.run.date);
        match self.missing {
            Some(1) => write!(f, "; 1 reading is missing for {date}"),
            Some(count) => write!(f, "; {count} readings are missing for {date}"),
            None => Ok(()),
        }
    }
}

/// Tells that a unit has no reading for a period.
fn write_missing<W: fmt::Write>(
    f: &mut fmt::Formatter<W>,
    unit: Option<UnitId>,
    period: PeriodNumber,
) -> fmt::Result {
    let number = period.number();
    match unit {
        Some(unit) => {
            let unit = unit.as_str();
            write!(f, "unit {unit} has no reading for period {number}")
        }
        None => write!(f, "a unit has no reading for period {number}"),
    }
}
