//! Rows as a table in the order of its keys, and whole tables of what is registered.

ghost use Rattle.std.specs.Prelude.{◌≡◌, [], IfOk};
ghost use Rattle.sqlite.specs.Held.{state};
ghost use Rattle.hh_tables.specs.Tables.{IsTable, put_all};
ghost use Rattle.hh_rows.specs.Keys.{lead_key_cmp};
ghost use Rattle.hh_sqlrows.specs.Forms.{rows_under_keys};
ghost use Rattle.hh_sqlrows.specs.OfficeTables.{leads, parties, units};
ghost use Rattle.hh_sqlrows.specs.Reads.{FindsIn, FindsOffice, ReadsSettled, ReadsSettledOf};

use hh_names::{PartyId, UnitId};
use hh_registrations::LeadTable;
use hh_rows::{LeadKey, LeadTerm, PartyRegistration, UnitRegistration};
use hh_sqlrows::tables::{Leads, Parties, Units};
use hh_sqlrows::{Listed, RowFault, select_all};
use hh_tables::ListTable;
use sqlite::{Alter, Connection};
use std::alloc::Global;

/// The table of these rows, without a copy. `Store` if their keys don't rise.
pub(crate) fn table_of<K: Ord + Copy, V: Drop>(
    rows: Vec<(K, V)>,
) -> Result<ListTable<K, V>, RowFault>
    ensures value { IfOk result (λ table. table ≡ rows.items) }
    ensures rises { IfOk result (IsTable K.cmp) }
{
    match ListTable::of_rows(rows) {
        Some(table) => Ok(table),
        None => Err(RowFault::Store),
    }
}

/// All rows of a table. `Store` if their keys don't rise.
fn all_rows<T: Listed, S: Alter>(
    conn: &mut Connection<S>,
    alloc: Global,
) -> Result<ListTable<T::Key, T::Value>, RowFault>
where
    T::Key: Ord + Copy,
    ensures frame { let new = state S.Store conn.new in
        ReadsSettledOf T.schema (state S.Store conn.old) new result }
    ensures value { FindsIn T.schema S.Store conn.old conn.new result
        (λ trees table. table ≡ rows_under_keys T.form trees) }
{
    match select_all::<T, S>(conn, alloc) {
        Ok(rows) => table_of(rows),
        Err(fault) => Err(fault),
    }
}

/// All parties.
pub(crate) fn all_parties<S: Alter>(
    conn: &mut Connection<S>,
    alloc: Global,
) -> Result<ListTable<PartyId, PartyRegistration>, RowFault>
    ensures frame { ReadsSettled (state S.Store conn.old) (state S.Store conn.new) result }
    ensures value { FindsOffice S.Store conn.old conn.new result
        (λ trees table. table ≡ rows_under_keys parties trees) }
{
    all_rows::<Parties, S>(conn, alloc)
}

/// All units.
pub(crate) fn all_units<S: Alter>(
    conn: &mut Connection<S>,
    alloc: Global,
) -> Result<ListTable<UnitId, UnitRegistration>, RowFault>
    ensures frame { ReadsSettled (state S.Store conn.old) (state S.Store conn.new) result }
    ensures value { FindsOffice S.Store conn.old conn.new result
        (λ trees table. table ≡ rows_under_keys units trees) }
{
    all_rows::<Units, S>(conn, alloc)
}

/// All registrations of units.
pub(crate) fn all_leads<S: Alter>(
    conn: &mut Connection<S>,
    alloc: Global,
) -> Result<LeadTable, RowFault>
    ensures frame { ReadsSettled (state S.Store conn.old) (state S.Store conn.new) result }
    ensures value { FindsOffice S.Store conn.old conn.new result
        (λ trees table. table ≡ rows_under_keys leads trees) }
{
    let rows = select_all::<Leads, S>(conn, alloc)?;
    lead_table_of(alloc, &rows)
}

/// The table of these registrations. `Store` if one begins after the last accepted date.
fn lead_table_of(alloc: Global, rows: &[(LeadKey, LeadTerm)]) -> Result<LeadTable, RowFault>
    ensures { IfOk result (λ table. table ≡ put_all lead_key_cmp rows.now []) }
{
    match LeadTable::of_rows(alloc, rows)? {
        Some(table) => Ok(table),
        None => Err(RowFault::Store),
    }
}
