//! A command at an office whose tables are kept in a database.

ghost use Rattle.std.specs.Prelude.{◌≡◌, ◌≢◌, ◌⊎◌, ◌<◌, Err, IfErr, IsErrOf, IsTrue, OnOk};
ghost use Rattle.sqlite.specs.Held.{state};
ghost use Rattle.hh_devices.specs.DeviceChanges.{change};
ghost use Rattle.hh_devices.specs.Devices.{Failed};
ghost use Rattle.hh_names.specs.declared.fault.Refusal.TheVariants.{Store};
ghost use Rattle.hh_names.specs.Faults.{plain_fault};
ghost use Rattle.hh_session.specs.Errands.{IsReport, errand_of};
ghost use Rattle.hh_session.specs.Refusals.{CountsMore};
ghost use Rattle.hh_sqlstore.specs.OfficeSchema.{office};
ghost use Rattle.hh_sqlstore.specs.Stores.{content_in};
ghost use Rattle.hh_kept_office.specs.Crashes.{KeptLeaves};
ghost use Rattle.hh_kept_office.specs.Kept.{EndsKept, LeavesKept};
ghost use Rattle.hh_kept_office.specs.steps.Crashes.{ConnectionLeaves};

use crate::over::run_over;
use crate::stop::AfterUse;
use hh_devices::Sink;
use hh_host::Host;
use hh_names::Fault;
use hh_session::{Errand, ErrandStop};
use hh_sqlstore::{Rising, SqlTables};
use sqlite::Connection;
use std::alloc::Global;

/// Does what a command asks of the office whose tables are in a database, in the zone of the market, and
/// returns the connection.
///
/// # Errors
///
/// As for `run_errand`. Also `Refused`, with nothing written, if the tables are not taken over: with 91 if
/// they are not those of an office of this version.
pub fn run_errand_in_database<S: Rising, H: Host, O: Sink>(
    alloc: Global,
    connection: Connection<S>,
    host: &H,
    errand: &Errand<'_>,
    out: &mut O,
) -> (Result<(), ErrandStop>, AfterUse<S>)
    ensures ends { IsTrue (state S.Store result.1.connection).is_open → EndsKept (H.view host.now)
        (0 < result.1.refusals) (change O.taken O.failures out.old out.new)
        (state S.Store connection).committed (state S.Store result.1.connection).committed
        (errand_of errand.now) result.0 }
    ensures well { OnOk result.0 (O.failures out.new ≡ O.failures out.old) }
    ensures failed { IsErrOf result.0 ErrandStop.Output
        → Failed (O.failures out.old) (O.failures out.new) }
    ensures untouched { IfErr result.0 (λ stop. stop ≢ ErrandStop.Output
        → IsReport (errand_of errand.now) ⊎ (out.new ≡ out.old)) }
    ensures foreign { (state S.Store connection).now.schema ≢ office
        → result.0 ≡ Err (ErrandStop.Refused (plain_fault Store)) }
    ensures left { KeptLeaves (H.view host.now) (state S.Store connection)
        (state S.Store result.1.connection) (errand_of errand.now) result.0 }
{
    match SqlTables::adopt(alloc, connection) {
        Ok(tables) => run_with_tables(alloc, tables, host, errand, out),
        Err((fault, connection)) => {
            let after = AfterUse {
                connection,
                refusals: 0,
            };
            (Err(ErrandStop::Refused(Fault::from(fault))), after)
        }
    }
}

/// Does the same with tables that were taken over.
fn run_with_tables<S: Rising, H: Host, O: Sink>(
    alloc: Global,
    tables: SqlTables<S>,
    host: &H,
    errand: &Errand<'_>,
    out: &mut O,
) -> (Result<(), ErrandStop>, AfterUse<S>)
    ensures ends { IsTrue (state S.Store result.1.connection).is_open → LeavesKept (H.view host.now)
        (CountsMore tables.refusals result.1.refusals) (change O.taken O.failures out.old out.new)
        (content_in S.Store tables) (state S.Store result.1.connection).committed
        (errand_of errand.now) result.0 }
    ensures well { OnOk result.0 (O.failures out.new ≡ O.failures out.old) }
    ensures failed { IsErrOf result.0 ErrandStop.Output
        → Failed (O.failures out.old) (O.failures out.new) }
    ensures untouched { IfErr result.0 (λ stop. stop ≢ ErrandStop.Output
        → IsReport (errand_of errand.now) ⊎ (out.new ≡ out.old)) }
    ensures sure { IsTrue (state S.Store result.1.connection).is_open
        → IsTrue (state S.Store tables.connection).is_open }
    ensures left { ConnectionLeaves S.Store (H.view host.now) tables.connection
        result.1.connection (content_in S.Store tables) (errand_of errand.now) result.0 }
{
    let (ended, tables) = run_over(alloc, tables, host, errand, out);
    (ended, AfterUse::of(tables))
}
