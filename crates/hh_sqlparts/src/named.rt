//! The part of what is registered and in force by which rows are judged.

ghost use Rattle.std.specs.Prelude.{◌≡◌, []};
ghost use Rattle.sqlite.specs.Held.{state};
ghost use Rattle.hh_kept_rows.specs.Parts.{leads_for};
ghost use Rattle.hh_sqlrows.specs.Contents.{registered_of};
ghost use Rattle.hh_sqlrows.specs.Forms.{rows_under_keys};
ghost use Rattle.hh_sqlrows.specs.OfficeTables.{leads};
ghost use Rattle.hh_sqlparts.specs.Named.{JudgesFor};
ghost use Rattle.hh_sqlrows.specs.Reads.{FindsSettled, ReadsSettled};

use crate::named_tables::{rows_named, rows_under_named};
use crate::tables::{all_leads, all_parties, all_units};
use hh_kept_rows::{KeptRegister, name_units};
use hh_names::UnitId;
use hh_registrations::LeadTable;
use hh_rows::Row;
use hh_sqlrows::tables::{Contracts, Meters, Prices, Reallocations, References};
use hh_sqlrows::{RowFault, UnitDate};
use hh_time::SettlementDate;
use sqlite::{Alter, Connection};
use std::alloc::Global;

/// The part of what is registered and in force that judges these rows as all of it would: all parties and
/// units, all registrations of units if a row names a unit, and what the rows name in the other tables.
/// `Memory`: memory is refused. `Store`: the database refuses, or contains what no office wrote. After
/// either fault the office is as it was.
pub fn select_named<S: Alter>(
    conn: &mut Connection<S>,
    alloc: Global,
    rows: &[Row],
) -> Result<KeptRegister, RowFault>
    ensures frame { ReadsSettled (state S.Store conn.old) (state S.Store conn.new) result }
    ensures value { FindsSettled S.Store conn.old conn.new result
        (λ trees. JudgesFor rows.now (registered_of trees)) }
{
    let parties = all_parties(conn, alloc)?;
    let units = all_units(conn, alloc)?;
    let references = rows_named::<References, S>(conn, alloc, rows)?;
    let meters = rows_under_named::<Meters, UnitDate, S>(conn, alloc, rows)?;
    let prices = rows_under_named::<Prices, SettlementDate, S>(conn, alloc, rows)?;
    let contracts = rows_named::<Contracts, S>(conn, alloc, rows)?;
    let reallocations = rows_under_named::<Reallocations, UnitId, S>(conn, alloc, rows)?;
    let leads = leads_named(conn, alloc, rows)?;
    Ok(KeptRegister {
        parties,
        units,
        leads,
        references,
        meters,
        prices,
        contracts,
        reallocations,
    })
}

/// The registrations of all units if one of these rows names a unit, and else none.
fn leads_named<S: Alter>(
    conn: &mut Connection<S>,
    alloc: Global,
    rows: &[Row],
) -> Result<LeadTable, RowFault>
    ensures frame { ReadsSettled (state S.Store conn.old) (state S.Store conn.new) result }
    ensures value { FindsSettled S.Store conn.old conn.new result
        (λ trees table. table ≡ leads_for rows.now (rows_under_keys leads trees) []) }
{
    if name_units(rows) {
        all_leads(conn, alloc)
    } else {
        Ok(LeadTable::new(alloc))
    }
}
