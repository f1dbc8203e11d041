//! Reports that are written while their rows are read from the database, one after the other.

ghost use Rattle.std.specs.Prelude.{◌≡◌, [], map, IfOk};
ghost use Rattle.sqlite.specs.Held.{state};
ghost use Rattle.hh_devices.specs.DeviceChanges.{change};
ghost use Rattle.hh_reports.specs.DayReport.{day_report_text};
ghost use Rattle.hh_reports.specs.Exports.{balances_text, results_text};
ghost use Rattle.hh_reports.specs.Nets.{Amounts, sum_for};
ghost use Rattle.hh_reports.specs.Writers.{HasAmounts};
ghost use Rattle.hh_store.specs.Outputs.{CountsOutcome, Outputs};
ghost use Rattle.hh_sqlrows.specs.Contents.{period_row, posted_amount, rows_of_run};
ghost use Rattle.hh_sqlrows.specs.Forms.{rows_under_keys};
ghost use Rattle.hh_sqlrows.specs.OfficeTables.{parties, postings};
ghost use Rattle.hh_sqlrows.specs.Reads.{OfSettled, ReadsSettled};

use hh_devices::Sink;
use hh_reports::{
    AccountSums, BalancesWriter, DayReportWriter, ReportedRun, ResultsWriter, reports_go_on,
};
use hh_runs::RunKey;
use hh_sqlrows::tables::{Parties, Postings};
use hh_sqlrows::{give_all, give_results_of};
use hh_store::OutputFault;
use sqlite::{Alter, Connection};
use std::alloc::Global;

/// Writes the results of a run, whose rows are selected here.
pub(crate) fn write_results<S: Alter, O: Sink>(
    conn: &mut Connection<S>,
    alloc: Global,
    run: &RunKey,
    reported: &ReportedRun,
    out: &mut O,
) -> Result<(), OutputFault>
    ensures frame { ReadsSettled (state S.Store conn.old) (state S.Store conn.new) result }
    ensures writes { let old = state S.Store conn.old in
        let new = state S.Store conn.new in
        OfSettled old new (Outputs (change O.taken O.failures out.old out.new)
        (results_text reported.now (map period_row (rows_of_run run.now old.now.trees))) result) }
    ensures counted { CountsOutcome (change O.taken O.failures out.old out.new) result }
{
    // Does nothing, but carries a law for the proof: the text of the first rows begins the text of all.
    reports_go_on();
    let mut writer = ResultsWriter::begin(alloc, reported, out)?;
    give_results_of(conn, alloc, run, &mut writer, out)?;
    Ok(writer.finish(out)?)
}

/// Writes the day report of a run, whose rows are selected here.
pub(crate) fn write_day_report<S: Alter, O: Sink>(
    conn: &mut Connection<S>,
    alloc: Global,
    run: &RunKey,
    reported: &ReportedRun,
    out: &mut O,
) -> Result<(), OutputFault>
    ensures frame { ReadsSettled (state S.Store conn.old) (state S.Store conn.new) result }
    ensures writes { let old = state S.Store conn.old in
        let new = state S.Store conn.new in
        OfSettled old new (Outputs (change O.taken O.failures out.old out.new)
        (day_report_text reported.now (map period_row (rows_of_run run.now old.now.trees))) result) }
    ensures counted { CountsOutcome (change O.taken O.failures out.old out.new) result }
{
    // Does nothing, but carries a law for the proof: the text of the first rows begins the text of all.
    reports_go_on();
    let mut writer = DayReportWriter::begin(alloc, reported, out)?;
    give_results_of(conn, alloc, run, &mut writer, out)?;
    Ok(writer.finish(out)?)
}

/// Writes the balances of both accounts of each registered party. The postings are summed first.
pub(crate) fn write_balances<S: Alter, O: Sink>(
    conn: &mut Connection<S>,
    alloc: Global,
    out: &mut O,
) -> Result<(), OutputFault>
    ensures frame { ReadsSettled (state S.Store conn.old) (state S.Store conn.new) result }
    ensures writes { let old = state S.Store conn.old in
        let new = state S.Store conn.new in
        OfSettled old new (Outputs (change O.taken O.failures out.old out.new)
        (balances_text (map (λ e. e.0) (rows_under_keys parties old.now.trees))
        (λ a. sum_for a (map posted_amount (rows_under_keys postings old.now.trees)))) result) }
    ensures counted { CountsOutcome (change O.taken O.failures out.old out.new) result }
{
    let sums = sums_posted(conn, alloc, out)?;
    write_parties(conn, alloc, sums, out)
}

/// The sum of what was posted to each account. Nothing is written.
fn sums_posted<S: Alter, O: Sink>(
    conn: &mut Connection<S>,
    alloc: Global,
    out: &mut O,
) -> Result<AccountSums, OutputFault>
    ensures frame { ReadsSettled (state S.Store conn.old) (state S.Store conn.new) result }
    ensures sums { let old = state S.Store conn.old in
        let new = state S.Store conn.new in
        IfOk result (λ sums. (amounts : Amounts) × HasAmounts sums amounts × OfSettled old new
        (amounts ≡ map posted_amount (rows_under_keys postings old.now.trees))) }
    ensures nothing { Outputs (change O.taken O.failures out.old out.new) [] result }
{
    let mut sums = AccountSums::new(alloc);
    give_all::<Postings, S, AccountSums, O>(conn, alloc, &mut sums, out)?;
    Ok(sums)
}

/// Writes the balances of both accounts of each registered party, from the sum posted to each account.
fn write_parties<S: Alter, O: Sink>(
    conn: &mut Connection<S>,
    alloc: Global,
    sums: AccountSums,
    out: &mut O,
) -> Result<(), OutputFault>
    ensures frame { ReadsSettled (state S.Store conn.old) (state S.Store conn.new) result }
    ensures writes { let old = state S.Store conn.old in
        let new = state S.Store conn.new in
        (amounts : Amounts) → HasAmounts sums amounts
        → OfSettled old new (Outputs (change O.taken O.failures out.old out.new)
        (balances_text (map (λ e. e.0) (rows_under_keys parties old.now.trees))
        (λ a. sum_for a amounts)) result) }
    ensures counted { (amounts : Amounts) → HasAmounts sums amounts
        → CountsOutcome (change O.taken O.failures out.old out.new) result }
{
    // Does nothing, but carries a law for the proof: the text of the first parties begins the text of all.
    reports_go_on();
    let mut writer = BalancesWriter::begin(alloc, sums, out)?;
    give_all::<Parties, S, BalancesWriter, O>(conn, alloc, &mut writer, out)?;
    Ok(writer.finish(out)?)
}
