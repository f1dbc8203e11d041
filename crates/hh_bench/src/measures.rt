//! The commands `settle`, `read` and `load`, which measure settlement, the reading of a file, and how rows
//! are judged and applied.

use crate::checksum::{checksum_of, checksum_of_rows};
use crate::generated::generated_period;
use crate::stop::TrialStop;
use crate::words::NamedFile;
use hh_calc::{CalcFault, PeriodData, settle_period};
use hh_names::{Fault, Refusal};
use hh_rows::{FileKind, LeadMinutes};
use hh_rules::{Register, RowDone};
use hh_texts::read_file;
use hh_time::london;
use jiff::tz::TimeZone;
use std::fs;
use std::time::Instant;

/// When each row comes: 2024-06-01T00:00:00Z, in seconds since 1970-01-01T00:00:00Z.
const MOMENT: i64 = 1_717_200_000;

/// The time at which something began that is measured.
#[derive(Clone, Copy)]
pub(crate) struct Watch {
    begin: Instant,
}

impl Watch {
    /// Begins to measure now.
    pub(crate) fn start(rt: &HostRuntime) -> Result<Watch, TrialStop> {
        Ok(Watch {
            begin: Instant::now(rt)?,
        })
    }

    /// Ends now, and prints on standard error the nanoseconds that it took.
    pub(crate) fn stop(self, rt: &HostRuntime) -> Result<(), TrialStop> {
        let taken = self.begin.elapsed(rt)?;
        let printed = eprintln!(rt; "{}", taken.as_nanos());
        printed.ok().ok_or(TrialStop::Output)
    }
}

/// Settles the generated period `times` times, and prints the checksum of the last time.
pub(crate) fn settle_again(rt: &HostRuntime, times: u32) -> Result<(), TrialStop> {
    let period = generated_period(rt.alloc()).ok_or(TrialStop::no_memory())?;
    let mut checksum = 0;
    for _ in 0..times {
        checksum = settle_once(rt, &period)?;
    }
    println!(rt; "{checksum}").ok().ok_or(TrialStop::Output)
}

/// Settles the period, if it may be settled, and prints the nanoseconds that it took.
fn settle_once(rt: &HostRuntime, period: &PeriodData) -> Result<u64, TrialStop> {
    if !period.is_ready() {
        return Err(TrialStop::NotReady);
    }
    let watch = Watch::start(rt)?;
    let settled = settle_period(rt.alloc(), period);
    watch.stop(rt)?;
    match settled {
        Ok(settled) => Ok(checksum_of(&settled)),
        Err(CalcFault::TooLarge) => Err(TrialStop::Refused(Refusal::TooLarge)),
        Err(CalcFault::Memory) => Err(TrialStop::no_memory()),
    }
}

/// How many rows a file has, with their checksum, or why it is refused.
type Outcome = Result<(usize, u64), Refusal>;

/// Reads the rows of a file `times` times, and prints what the last time gave. The file's bytes are read
/// once, before that.
pub(crate) fn read_again(
    rt: &HostRuntime,
    file: NamedFile<'_>,
    times: u32,
) -> Result<(), TrialStop> {
    let (kind, path) = file;
    let bytes = fs::read(rt, path)?;
    let mut outcome: Outcome = Ok((0, 0));
    for _ in 0..times {
        outcome = read_once(rt, kind, &bytes)?;
    }
    let printed = match outcome {
        Ok((count, checksum)) => println!(rt; "{count} {checksum}"),
        Err(refusal) => println!(rt; "refused {} {}", refusal.number(), refusal.name()),
    };
    printed.ok().ok_or(TrialStop::Output)
}

/// Reads the rows of the bytes, and prints the nanoseconds that it took.
fn read_once(rt: &HostRuntime, kind: FileKind, bytes: &[u8]) -> Result<Outcome, TrialStop> {
    let watch = Watch::start(rt)?;
    let read = read_file(rt.alloc(), kind, bytes);
    watch.stop(rt)?;
    match read {
        Ok(rows) => Ok(Ok((rows.len(), checksum_of_rows(&rows)))),
        Err(fault) if fault.refusal == Refusal::Memory => Err(TrialStop::no_memory()),
        Err(fault) => Ok(Err(fault.refusal)),
    }
}

/// Counts one more row of a file, among those that were applied, were late or were refused. `Err` only if
/// memory was refused.
fn count(counts: &mut [u32; 3], judged: Result<RowDone, Fault>) -> Result<(), TrialStop> {
    match judged {
        Ok(RowDone::Applied { .. }) => counts[0] = counts[0].saturating_add(1),
        Ok(RowDone::Late { .. }) => counts[1] = counts[1].saturating_add(1),
        Err(fault) if fault.refusal == Refusal::Memory => return Err(TrialStop::no_memory()),
        Err(_) => counts[2] = counts[2].saturating_add(1),
    }
    Ok(())
}

/// Loads the files into a new register, in their order.
pub(crate) fn load_files(rt: &HostRuntime, files: &[NamedFile<'_>]) -> Result<(), TrialStop> {
    let mut register = Register::new(rt.alloc(), LeadMinutes::default());
    let zone = london();
    for file in files {
        load_file(rt, &mut register, &zone, *file)?;
    }
    Ok(())
}

/// Judges each row of a file, and applies it if it is accepted. Prints what became of the rows, and the
/// nanoseconds that it took.
fn load_file(
    rt: &HostRuntime,
    register: &mut Register,
    zone: &TimeZone<'_>,
    file: NamedFile<'_>,
) -> Result<(), TrialStop> {
    let (kind, path) = file;
    let bytes = fs::read(rt, path)?;
    let rows = read_file(rt.alloc(), kind, &bytes)?;
    let mut counts = [0u32; 3];
    let watch = Watch::start(rt)?;
    for row in &rows {
        count(&mut counts, register.apply_row(zone, MOMENT, *row))?;
    }
    watch.stop(rt)?;
    let (kind, [applied, late, refused]) = (kind.word(), counts);
    let printed = println!(rt; "{kind} applied {applied} late {late} refused {refused}");
    printed.ok().ok_or(TrialStop::Output)
}
