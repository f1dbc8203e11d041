//! Tests of what no clause says and no program shows: over both kinds of tables, reports are written whole
//! into an output that takes one byte in a call, also after an output has failed. Outputs of the system
//! that fail are in `tests/`. And how many Settlement Periods of a day may have changed since its last run.

use crate::requests::{OPERATOR, ask_all, run, settings};
use crate::versions::opened;
use hh_devices::MemorySink;
use hh_office::{Office, ReportStop};
use hh_plain_tables::PlainTables;
use hh_requests::Report;
use hh_rows::Settings;
use hh_sqlstore::{Rising, SqlTables};
use hh_store::Tables;
use hh_time::{Day, london};
use sqlite::Connection;
use std::alloc::{AllocError, Global};
use std::test::Fail;

/// More bytes than any of the reports has.
const ROOM: usize = 30_000;

/// After how many bytes an output fails.
const CUT: usize = 25;

/// Asks an office for a report, by the call for that report.
fn write<T: Tables>(
    office: &mut Office<'_, T>,
    report: &Report,
    out: &mut MemorySink,
) -> Result<(), ReportStop> {
    match report {
        Report::Day(run) => office.report_day(OPERATOR, run.date, run.kind, out),
        Report::Results(run) => office.report_results(OPERATOR, run.date, run.kind, out),
        Report::Balances => office.report_balances(OPERATOR, out),
    }
}

/// Whether a report of this size is cut off by an output that fails, and then written whole by bytes.
fn is_written<T: Tables>(
    alloc: Global,
    office: &mut Office<'_, T>,
    report: &Report,
    size: usize,
) -> Result<bool, AllocError> {
    let mut cut = MemorySink::with_room(alloc, ROOM)?.failing_after(CUT);
    let mut whole = MemorySink::with_room(alloc, ROOM)?.in_pieces(1);
    let stopped = write(office, report, &mut cut) == Err(ReportStop::Write);
    let done = write(office, report, &mut whole) == Ok(());
    Ok(stopped && done && are_taken(&cut, &whole, size))
}

/// Whether an output has taken the first bytes of what another has taken whole, and failed once.
fn are_taken(cut: &MemorySink, whole: &MemorySink, size: usize) -> bool {
    cut.taken().len() == CUT
        && cut.failures() == 1
        && whole.taken().starts_with(cut.taken())
        && whole.taken().len() == size
        && whole.failures() == 0
}

/// Whether an office that is asked all requests writes each of its reports. Nothing if it isn't asked.
fn are_written<T: Tables>(alloc: Global, office: &mut Office<'_, T>) -> Option<bool> {
    ask_all(alloc, office)?;
    let run = run()?;
    let day = is_written(alloc, office, &Report::Day(run), 26_984).ok()?;
    let results = is_written(alloc, office, &Report::Results(run), 15_613).ok()?;
    let balances = is_written(alloc, office, &Report::Balances, 63).ok()?;
    Some(day && results && balances)
}

/// How many Settlement Periods of the day may have changed since its last run.
fn changed<T: Tables>(tables: &mut T) -> Option<usize> {
    let day = Day::of(run()?.date, &london())?;
    Some(tables.day_data(&day).ok()?.changed())
}

/// Whether an office over new tables writes its reports, and how many Settlement Periods may have changed
/// since its run. The tables are returned.
fn reported<T: Tables>(alloc: Global, tables: T) -> (Option<(bool, usize)>, T) {
    let mut office = Office::new(alloc, tables, london());
    let written = are_written(alloc, &mut office);
    let mut tables = office.into_tables();
    let count = changed(&mut tables);
    (written.zip(count), tables)
}

#[test]
fn reports_over_tables_in_memory(rt: HostRuntime) -> Result<(), Fail> {
    let tables = PlainTables::new(rt.alloc(), settings().ok_or("settings")?);
    let (came, _tables) = reported(rt.alloc(), tables);
    assert!(rt; came == Some((true, 48)));
    Ok(())
}

/// What comes of an office in a database without tables.
fn in_a_database<S: Rising + Drop>(
    alloc: Global,
    connection: Connection<S>,
    settings: Settings,
) -> Option<(bool, usize)> {
    match SqlTables::create(alloc, connection, settings) {
        Ok(tables) => {
            let (came, tables) = reported(alloc, tables);
            drop(tables.into_connection());
            came
        }
        Err(_) => None,
    }
}

#[test]
fn reports_over_tables_in_a_database(rt: HostRuntime) -> Result<(), Fail> {
    let settings = settings().ok_or("settings")?;
    let connection = opened(rt.alloc()).ok_or("database")?;
    assert!(rt; in_a_database(rt.alloc(), connection, settings) == Some((true, 0)));
    Ok(())
}
