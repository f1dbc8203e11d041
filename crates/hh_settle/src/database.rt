//! Commands on a database.

ghost use Rattle.std.specs.Prelude.{◌≡◌, Ok, IfErr, IfOk, OnErr, OnOk, None, false};
ghost use Rattle.hh_devices.specs.DeviceChanges.{change};
ghost use Rattle.hh_kept_office.specs.Places.{places_of, shown_by};
ghost use Rattle.hh_words.specs.Tasks.{ToLoad, ToReport, ToRun, ToServe, load_task, report_task, run_task, task_of};
ghost use Rattle.hh_settle.specs.Stops.{stop_status};
ghost use Rattle.hh_settle.specs.Tasks.{DoesTask, IsMoment, StopsTask};

use crate::stop::Stop;
use hh_devices::Sink;
use hh_host::{ClockFailed, Host};
use hh_kept_office::{
    DatabaseHost, Errand, Notes, Rising, Serving, make_office_at, migrate_at, run_errand_at,
    run_script_at,
};
use hh_script::{LoadLine, ReportLine, RunLine};
use hh_words::{DatabaseTask, DatabaseWords, LoadWords, ReportWords, RunWords, ServeWords};
use sqlite::Connection;
use std::alloc::Global;

/// Does what a command on a database asks for.
pub(crate) fn on_database<
    S: Rising,
    D: DatabaseHost<Connection = Connection<S>>,
    N: Notes,
    O: Sink,
>(
    alloc: Global,
    host: &D,
    words: &DatabaseWords<'_>,
    strict: bool,
    notes: &mut N,
    out: &mut O,
) -> Result<(), Stop>
    ensures done { OnOk result (DoesTask (D.view host.now)
        (places_of D.finds D.refuses D.opens D.closes D.discards (shown_by S.Store) host.now)
        words.now.path.now
        (change O.taken O.failures out.old out.new) strict (task_of words.now.task)) }
    ensures well { OnOk result (O.failures out.new ≡ O.failures out.old) }
    ensures stopped { IfErr result (StopsTask (D.view host.now)
        (places_of D.finds D.refuses D.opens D.closes D.discards (shown_by S.Store) host.now)
        words.now.path.now
        (change O.taken O.failures out.old out.new)
        strict (task_of words.now.task)) }
    ensures bad_line { IfErr result (λ stop. stop_status stop ≡ 2 → out.new ≡ out.old) }
{
    match &words.task {
        DatabaseTask::Init(settings) => Ok(make_office_at(
            alloc, host, words.path, *settings, out,
        )?),
        DatabaseTask::Migrate => Ok(migrate_at(alloc, host, words.path, out)?),
        DatabaseTask::Load(load) => load_at(alloc, host, words.path, load, out),
        DatabaseTask::Run(run) => run_at(alloc, host, words.path, run, out),
        DatabaseTask::Report(report) => report_at(alloc, host, words.path, report, out),
        DatabaseTask::Serve(serve) => serve_at(alloc, host, words.path, serve, out),
        DatabaseTask::Script(file) => Ok(run_script_at(
            alloc, host, words.path, file, strict, notes, out,
        )?),
    }
}

/// Does what `load` asks for on a database.
fn load_at<S: Rising, D: DatabaseHost<Connection = Connection<S>>, O: Sink>(
    alloc: Global,
    host: &D,
    path: &str,
    words: &LoadWords<'_>,
    out: &mut O,
) -> Result<(), Stop>
    ensures done { OnOk result (DoesTask (D.view host.now)
        (places_of D.finds D.refuses D.opens D.closes D.discards (shown_by S.Store) host.now)
        path.now
        (change O.taken O.failures out.old out.new) false (ToLoad (load_task words.now))) }
    ensures well { OnOk result (O.failures out.new ≡ O.failures out.old) }
    ensures stopped { IfErr result (StopsTask (D.view host.now)
        (places_of D.finds D.refuses D.opens D.closes D.discards (shown_by S.Store) host.now)
        path.now
        (change O.taken O.failures out.old out.new) false (ToLoad (load_task words.now))) }
    ensures on { IfErr result (λ stop. stop_status stop ≡ 1) }
{
    let line = LoadLine {
        moment: moment_of(host, words.at)?,
        key: words.key,
        kind: words.kind,
        path: words.path,
        name: words.name,
    };
    run_errand_at(alloc, host, path, &Errand::Load(line), out)?;
    Ok(())
}

/// Does what `run` asks for on a database.
fn run_at<S: Rising, D: DatabaseHost<Connection = Connection<S>>, O: Sink>(
    alloc: Global,
    host: &D,
    path: &str,
    words: &RunWords<'_>,
    out: &mut O,
) -> Result<(), Stop>
    ensures done { OnOk result (DoesTask (D.view host.now)
        (places_of D.finds D.refuses D.opens D.closes D.discards (shown_by S.Store) host.now)
        path.now
        (change O.taken O.failures out.old out.new) false (ToRun (run_task words.now))) }
    ensures well { OnOk result (O.failures out.new ≡ O.failures out.old) }
    ensures stopped { IfErr result (StopsTask (D.view host.now)
        (places_of D.finds D.refuses D.opens D.closes D.discards (shown_by S.Store) host.now)
        path.now
        (change O.taken O.failures out.old out.new) false (ToRun (run_task words.now))) }
    ensures on { IfErr result (λ stop. stop_status stop ≡ 1) }
{
    let line = RunLine {
        moment: moment_of(host, words.at)?,
        key: words.key,
        run: words.run,
    };
    run_errand_at(alloc, host, path, &Errand::Run(line), out)?;
    Ok(())
}

/// Does what `report` asks for on a database.
fn report_at<S: Rising, D: DatabaseHost<Connection = Connection<S>>, O: Sink>(
    alloc: Global,
    host: &D,
    path: &str,
    words: &ReportWords<'_>,
    out: &mut O,
) -> Result<(), Stop>
    ensures done { OnOk result (DoesTask (D.view host.now)
        (places_of D.finds D.refuses D.opens D.closes D.discards (shown_by S.Store) host.now)
        path.now
        (change O.taken O.failures out.old out.new) false (ToReport (report_task words.now))) }
    ensures well { OnOk result (O.failures out.new ≡ O.failures out.old) }
    ensures stopped { IfErr result (StopsTask (D.view host.now)
        (places_of D.finds D.refuses D.opens D.closes D.discards (shown_by S.Store) host.now)
        path.now
        (change O.taken O.failures out.old out.new) false (ToReport (report_task words.now))) }
    ensures on { IfErr result (λ stop. stop_status stop ≡ 1) }
{
    let line = ReportLine {
        key: words.key,
        report: words.report,
    };
    run_errand_at(alloc, host, path, &Errand::Report(line), out)?;
    Ok(())
}

/// Does what `serve` asks for on a database.
fn serve_at<S: Rising, D: DatabaseHost<Connection = Connection<S>>, O: Sink>(
    alloc: Global,
    host: &D,
    path: &str,
    words: &ServeWords,
    out: &mut O,
) -> Result<(), Stop>
    ensures done { OnOk result (DoesTask (D.view host.now)
        (places_of D.finds D.refuses D.opens D.closes D.discards (shown_by S.Store) host.now)
        path.now
        (change O.taken O.failures out.old out.new) false (ToServe words.now)) }
    ensures well { OnOk result (O.failures out.new ≡ O.failures out.old) }
    ensures stopped { IfErr result (StopsTask (D.view host.now)
        (places_of D.finds D.refuses D.opens D.closes D.discards (shown_by S.Store) host.now)
        path.now
        (change O.taken O.failures out.old out.new) false (ToServe words.now)) }
    ensures on { IfErr result (λ stop. stop_status stop ≡ 1) }
{
    let serve = Serving {
        at: words.at,
        port: words.port,
        count: words.count,
    };
    run_errand_at(alloc, host, path, &Errand::Serve(serve), out)?;
    Ok(())
}

/// The moment that was given, or that of the host's clock.
fn moment_of<H: Host>(host: &H, at: Option<i64>) -> Result<i64, ClockFailed>
    ensures moment { IfOk result (IsMoment at) }
    ensures asked { OnErr result (at ≡ None) }
{
    match at {
        Some(moment) => Ok(moment),
        None => host.now(),
    }
}
