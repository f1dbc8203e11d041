//! The lines of a script, run over an office whose tables are kept in a database.

ghost use Rattle.std.specs.Prelude.{◌≡◌, ◌≢◌, ◌<◌, map, IfErr, IfOk, IsTrue, MatchResult, OnOk};
ghost use Rattle.sqlite.specs.Held.{state};
ghost use Rattle.hh_devices.specs.DeviceChanges.{change};
ghost use Rattle.hh_devices.specs.Devices.{Failed};
ghost use Rattle.hh_states.specs.Content.{Content};
ghost use Rattle.hh_store.specs.declared.store_fault.StoreFault.TheVariants.{Store};
ghost use Rattle.hh_sqlstore.specs.Holds.{Holds};
ghost use Rattle.hh_sqlstore.specs.Leaving.{LeavesDatabase};
ghost use Rattle.hh_sqlstore.specs.OfficeSchema.{nothing, office};
ghost use Rattle.hh_sqlstore.specs.Stores.{content_in};
ghost use Rattle.hh_sqlstore.specs.Values.{version};
ghost use Rattle.hh_script.specs.Steps.{step_of};
ghost use Rattle.hh_session.specs.Course.{AllDone};
ghost use Rattle.hh_session.specs.Refusals.{CountsMore};
ghost use Rattle.hh_kept_office.specs.Running.{EarlyNew, EarlyOver, IfEarly, WereRefused, WritesNew, WritesOver};

use crate::lines::run_lines_over;
use crate::stop::{AfterUse, DatabaseStop};
use hh_devices::Sink;
use hh_host::Host;
use hh_rows::Settings;
use hh_script::ScriptLine;
use hh_session::{LinesStop, Notes, reached_conserve};
use hh_sqlstore::{Rising, SqlTables};
use hh_store::StoreFault;
use sqlite::{Alter, Connection};
use std::alloc::Global;

/// Makes the tables of an office with these settings in an empty database. Then it runs the lines of a
/// script over the office, one after the other, and writes what comes of each, as `run_lines` does. A line
/// is told 91 only if the database has refused a call of the office. The connection is returned in any
/// case.
///
/// # Errors
///
/// `Refused`: the tables are not made, nothing is written, and the database is as it was. `Early` as for
/// `run_lines`.
pub fn run_in_new_database<S: Alter, H: Host, N: Notes, O: Sink>(
    alloc: Global,
    connection: Connection<S>,
    settings: Settings,
    host: &H,
    lines: &[ScriptLine<'_>],
    strict: bool,
    notes: &mut N,
    out: &mut O,
) -> Result<AfterUse<S>, (DatabaseStop, AfterUse<S>)>
    ensures done { IfOk result (λ after. IsTrue (state S.Store after.connection).is_open
        → WritesNew (H.view host.now) (0 < after.refusals)
        (change O.taken O.failures out.old out.new) (state S.Store after.connection).committed
        (map step_of lines.now) settings (AllDone strict)) }
    ensures well { OnOk result (O.failures out.new ≡ O.failures out.old) }
    ensures cut { IfErr result (λ e. IfEarly e.0 (λ why.
        IsTrue (state S.Store e.1.connection).is_open
        → EarlyNew (H.view host.now) (0 < e.1.refusals)
        (change O.taken O.failures out.old out.new) (state S.Store e.1.connection).committed
        strict (map step_of lines.now) settings why)) }
    ensures failed { IfErr result (λ e. e.0 ≡ DatabaseStop.Early LinesStop.Output
        → Failed (O.failures out.old) (O.failures out.new)) }
    ensures untouched { IfErr result (λ e. WereRefused e.0 → out.new ≡ out.old) }
    ensures undone { IfErr result (λ e. WereRefused e.0
        → LeavesDatabase (state S.Store connection) (state S.Store e.1.connection)) }
    ensures foreign { (state S.Store connection).now.schema ≢ nothing
        → MatchResult result (λ _. ⊥) (λ e. e.0 ≡ DatabaseStop.Refused Store) }
{
    // Does nothing, but carries a law for the proof: the settings are within their ranges.
    settings.are_settings();
    match SqlTables::create(alloc, connection, settings) {
        Ok(tables) => run_over_database(alloc, tables, host, lines, strict, notes, out),
        Err(refused) => Err(not_run(refused)),
    }
}

/// Runs the lines of a script over the office whose tables are in a database, one after the other, and
/// writes what comes of each, as `run_lines` does. A line is told 91 only if the database has refused a
/// call of the office.
///
/// # Errors
///
/// As for `run_in_new_database`. `Refused` if the tables are not taken over.
pub fn run_in_database<S: Rising, H: Host, N: Notes, O: Sink>(
    alloc: Global,
    connection: Connection<S>,
    host: &H,
    lines: &[ScriptLine<'_>],
    strict: bool,
    notes: &mut N,
    out: &mut O,
) -> Result<AfterUse<S>, (DatabaseStop, AfterUse<S>)>
    ensures done { (content : Content) → Holds version content (state S.Store connection).committed
        → IfOk result (λ after. IsTrue (state S.Store after.connection).is_open
        → WritesOver (H.view host.now) (0 < after.refusals)
        (change O.taken O.failures out.old out.new) (state S.Store after.connection).committed
        (map step_of lines.now) content (AllDone strict)) }
    ensures well { OnOk result (O.failures out.new ≡ O.failures out.old) }
    ensures cut { (content : Content) → Holds version content (state S.Store connection).committed
        → IfErr result (λ e. IfEarly e.0 (λ why.
        IsTrue (state S.Store e.1.connection).is_open
        → EarlyOver (H.view host.now) (0 < e.1.refusals)
        (change O.taken O.failures out.old out.new) (state S.Store e.1.connection).committed
        strict (map step_of lines.now) content why)) }
    ensures failed { IfErr result (λ e. e.0 ≡ DatabaseStop.Early LinesStop.Output
        → Failed (O.failures out.old) (O.failures out.new)) }
    ensures untouched { IfErr result (λ e. WereRefused e.0 → out.new ≡ out.old) }
    ensures left { IfErr result (λ e. WereRefused e.0
        → LeavesDatabase (state S.Store connection) (state S.Store e.1.connection)) }
    ensures foreign { (state S.Store connection).now.schema ≢ office
        → MatchResult result (λ _. ⊥) (λ e. e.0 ≡ DatabaseStop.Refused Store) }
{
    match SqlTables::adopt(alloc, connection) {
        Ok(tables) => run_over_database(alloc, tables, host, lines, strict, notes, out),
        Err(refused) => Err(not_run(refused)),
    }
}

/// What comes of lines that are not run, because the tables are refused.
fn not_run<S: Alter>(refused: (StoreFault, Connection<S>)) -> (DatabaseStop, AfterUse<S>)
    ensures stop { result.0 ≡ DatabaseStop.Refused refused.0 }
    ensures connection { result.1.connection ≡ refused.1 }
{
    let (fault, connection) = refused;
    let after = AfterUse {
        connection,
        refusals: 0,
    };
    (DatabaseStop::Refused(fault), after)
}

/// Runs the lines of a script over an office with these tables, one after the other, and writes what comes
/// of each, as `run_lines` does. A line is told 91 only if the database has refused a call of the office.
/// The tables' connection is returned.
///
/// # Errors
///
/// `Early` as for `run_lines`.
pub fn run_over_database<S: Alter, H: Host, N: Notes, O: Sink>(
    alloc: Global,
    tables: SqlTables<S>,
    host: &H,
    lines: &[ScriptLine<'_>],
    strict: bool,
    notes: &mut N,
    out: &mut O,
) -> Result<AfterUse<S>, (DatabaseStop, AfterUse<S>)>
    ensures done { IfOk result (λ after. IsTrue (state S.Store after.connection).is_open
        → WritesOver (H.view host.now)
        (CountsMore tables.refusals after.refusals)
        (change O.taken O.failures out.old out.new) (state S.Store after.connection).committed
        (map step_of lines.now) (content_in S.Store tables) (AllDone strict)) }
    ensures well { OnOk result (O.failures out.new ≡ O.failures out.old) }
    ensures cut { IfErr result (λ e. IfEarly e.0 (λ why.
        IsTrue (state S.Store e.1.connection).is_open
        → EarlyOver (H.view host.now)
        (CountsMore tables.refusals e.1.refusals)
        (change O.taken O.failures out.old out.new) (state S.Store e.1.connection).committed
        strict (map step_of lines.now) (content_in S.Store tables) why)) }
    ensures run { IfErr result (λ e. WereRefused e.0 → ⊥) }
    ensures failed { IfErr result (λ e. e.0 ≡ DatabaseStop.Early LinesStop.Output
        → Failed (O.failures out.old) (O.failures out.new)) }
    ensures sure { MatchResult result
        (λ after. IsTrue (state S.Store after.connection).is_open
        → IsTrue (state S.Store tables.connection).is_open)
        (λ e. IsTrue (state S.Store e.1.connection).is_open
        → IsTrue (state S.Store tables.connection).is_open) }
{
    // Does nothing, but carries a law for the proof: the tables of the machine's states add up.
    reached_conserve();
    let (ran, tables) = run_lines_over(alloc, tables, host, lines, strict, notes, out);
    let after = AfterUse::of(tables);
    match ran {
        Ok(()) => Ok(after),
        Err(why) => Err((DatabaseStop::Early(why), after)),
    }
}
