//! Everything from which a Settlement Day is settled.

ghost use Rattle.std.specs.Prelude.{◌≡◌, OnOk};
ghost use Rattle.sqlite.specs.Held.{state};
ghost use Rattle.hh_tables.specs.Tables.{IsTable};
ghost use Rattle.hh_rows.specs.Keys.{reallocation_key_cmp};
ghost use Rattle.hh_kept_rows.specs.DayRows.{HasRowsOn};
ghost use Rattle.hh_sqlrows.specs.Contents.{registered_of};
ghost use Rattle.hh_sqlrows.specs.Reads.{FindsSettled, ReadsSettled};
ghost use Rattle.hh_sqlparts.specs.steps.DayParts.{with_registered, with_rows_of_units};

use crate::day_contracts::select_contracts;
use crate::day_units::{ids_on, unit_days};
use crate::tables::{all_leads, all_parties, all_units, table_of};
use hh_kept_rows::KeptRegister;
use hh_names::UnitId;
use hh_sqlrows::tables::{Meters, Prices, Reallocations};
use hh_sqlrows::{RowFault, UnitDate, select_under, select_under_each};
use hh_time::SettlementDate;
use sqlite::{Alter, Connection};
use std::alloc::Global;

/// Everything from which a Settlement Day is settled: all parties, units and registrations of units; the
/// prices of the date; its contracts with the sellers and buyers of their references; and the readings and
/// reallocations of the units that are effective on it.
pub fn select_day<S: Alter>(
    conn: &mut Connection<S>,
    alloc: Global,
    date: SettlementDate,
) -> Result<KeptRegister, RowFault>
    ensures frame { ReadsSettled (state S.Store conn.old) (state S.Store conn.new) result }
    ensures value { FindsSettled S.Store conn.old conn.new result
        (λ trees. HasRowsOn date (registered_of trees)) }
{
    let mut part = KeptRegister::new(alloc);
    select_contracts(conn, alloc, &mut part, date)?;
    select_registered(conn, alloc, &mut part, date)?;
    select_of_units(conn, alloc, &mut part, date)?;
    Ok(part)
}

/// Adds all parties, units and registrations of units, and the prices of a date, to a part.
fn select_registered<S: Alter>(
    conn: &mut Connection<S>,
    alloc: Global,
    part: &mut KeptRegister,
    date: SettlementDate,
) -> Result<(), RowFault>
    ensures frame { ReadsSettled (state S.Store conn.old) (state S.Store conn.new) result }
    ensures value { FindsSettled S.Store conn.old conn.new result
        (λ trees _. part.new ≡ with_registered date (registered_of trees) part.old) }
{
    part.parties = all_parties(conn, alloc)?;
    part.units = all_units(conn, alloc)?;
    part.leads = all_leads(conn, alloc)?;
    part.prices = table_of(select_under::<Prices, SettlementDate, S>(conn, alloc, &date)?)?;
    Ok(())
}

/// Adds to a part the readings of a date and the reallocations, of the units that are effective on it.
fn select_of_units<S: Alter>(
    conn: &mut Connection<S>,
    alloc: Global,
    part: &mut KeptRegister,
    date: SettlementDate,
) -> Result<(), RowFault>
    ensures frame { ReadsSettled (state S.Store conn.old) (state S.Store conn.new) result }
    ensures value { FindsSettled S.Store conn.old conn.new result
        (λ trees _. part.new ≡ with_rows_of_units date (registered_of trees) part.old) }
    ensures rises { OnOk result (IsTable reallocation_key_cmp part.new.reallocations) }
{
    let units = ids_on(alloc, part.units.rows(), date)?;
    let days = unit_days(alloc, &units, date)?;
    part.meters = table_of(select_under_each::<Meters, UnitDate, S>(conn, alloc, &days)?)?;
    part.reallocations = table_of(select_under_each::<Reallocations, UnitId, S>(
        conn, alloc, &units,
    )?)?;
    Ok(())
}
