//! Commands on an office at a path.

ghost use Rattle.std.specs.Prelude.{◌≡◌, ◌≢◌, ◌⊎◌, IfErr, OnOk};
ghost use Rattle.hh_devices.specs.DeviceChanges.{change};
ghost use Rattle.hh_session.specs.Errands.{IsReport, errand_of};
ghost use Rattle.hh_kept_office.specs.Paths.{EndsAt, IsPutAway, MakesAt};
ghost use Rattle.hh_kept_office.specs.Places.{places_of, shown_by};

use crate::errands::run_errand_in_database;
use crate::making::make_office_in_database;
use crate::place::DatabaseHost;
use hh_devices::Sink;
use hh_names::Fault;
use hh_rows::Settings;
use hh_session::{Errand, ErrandStop};
use hh_sqlstore::Rising;
use hh_store::StoreFault;
use sqlite::Connection;
use std::alloc::Global;

/// Why a command on an office at a path is not done.
#[derive(Clone, Copy, Debug, PartialEq, Eq)]
pub enum PathStop {
    /// An office was to be made, and there is something at the path.
    Exists,
    /// There is nothing at the path.
    NoFile,
    /// The path cannot be looked at, no database can be opened or made there, or the command was not done.
    Errand(ErrandStop),
}

impl From<StoreFault> for PathStop {
    ghost use Rattle.hh_kept_office.specs.Paths.{unopened_stop};

    ghost from_gives = { λ fault stop. stop ≡ unopened_stop fault };

    fn from(fault: StoreFault) -> PathStop {
        PathStop::Errand(ErrandStop::Refused(Fault::from(fault)))
    }
}

impl From<ErrandStop> for PathStop {
    ghost use Rattle.hh_kept_office.specs.declared.path.PathStop.TheVariants.{Errand};

    ghost from_gives = { λ why stop. stop ≡ Errand why };

    fn from(why: ErrandStop) -> PathStop {
        PathStop::Errand(why)
    }
}

/// Makes an office with these settings at a path where there is nothing, and writes `ready`.
///
/// # Errors
///
/// `Exists`: there is something at the path. `Errand`: the path cannot be looked at, or no database can be
/// made there; or as for `make_office_in_database`. If the office is refused, nothing is left at the path.
pub fn make_office_at<S: Rising, D: DatabaseHost<Connection = Connection<S>>, O: Sink>(
    alloc: Global,
    host: &D,
    path: &str,
    settings: Settings,
    out: &mut O,
) -> Result<(), PathStop>
    ensures makes { MakesAt
        (places_of D.finds D.refuses D.opens D.closes D.discards (shown_by S.Store) host.now)
        path.now (change O.taken O.failures out.old out.new) settings result }
    ensures well { OnOk result (O.failures out.new ≡ O.failures out.old) }
    ensures untouched { IfErr result (λ stop. stop ≢ PathStop.Errand ErrandStop.Output
        → out.new ≡ out.old) }
{
    if host.exists(path)? {
        return Err(PathStop::Exists);
    }
    let connection = host.make(path)?;
    let (ended, connection) = make_office_in_database(alloc, connection, settings, out);
    put_away(host, path, &ended, connection);
    ended?;
    Ok(())
}

/// Closes a database in which an office was to be made. If it was not made, the database is removed.
fn put_away<D: DatabaseHost>(
    host: &D,
    path: &str,
    ended: &Result<(), ErrandStop>,
    connection: D::Connection,
)
    ensures { IsPutAway (D.closes host.now path.now connection)
        (D.discards host.now path.now connection) ended.now }
{
    match ended {
        Ok(()) | Err(ErrandStop::Output) => host.close(path, connection),
        Err(_) => host.discard(path, connection),
    }
}

/// Does what a command asks of the office at a path.
///
/// # Errors
///
/// `NoFile`: there is nothing at the path. `Errand`: the path cannot be looked at, or the database cannot
/// be opened; or as for `run_errand_in_database`.
pub fn run_errand_at<S: Rising, D: DatabaseHost<Connection = Connection<S>>, O: Sink>(
    alloc: Global,
    host: &D,
    path: &str,
    errand: &Errand<'_>,
    out: &mut O,
) -> Result<(), PathStop>
    ensures ends { EndsAt
        (places_of D.finds D.refuses D.opens D.closes D.discards (shown_by S.Store) host.now)
        path.now (change O.taken O.failures out.old out.new) (D.view host.now)
        (errand_of errand.now) result }
    ensures well { OnOk result (O.failures out.new ≡ O.failures out.old) }
    ensures untouched { IfErr result (λ stop. stop ≢ PathStop.Errand ErrandStop.Output
        → IsReport (errand_of errand.now) ⊎ (out.new ≡ out.old)) }
{
    if !host.exists(path)? {
        return Err(PathStop::NoFile);
    }
    let connection = host.open(path)?;
    let (ended, after) = run_errand_in_database(alloc, connection, host, errand, out);
    host.close(path, after.into_connection());
    ended?;
    Ok(())
}
