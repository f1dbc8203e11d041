//! The volumes and the positions that contract rows change, as they are before these rows.

ghost use Rattle.std.specs.Prelude.{◌≡◌, [], All, IfOk, OnOk};
ghost use Rattle.hh_tables.specs.Tables.{put_all};
ghost use Rattle.hh_rows.specs.Keys.{contract_key_cmp};
ghost use Rattle.hh_rules.specs.Positions.{position_key, position_key_cmp};
ghost use Rattle.sqlite.specs.Held.{state};
ghost use Rattle.hh_sqlrows.specs.Forms.{rows_under_keys};
ghost use Rattle.hh_sqlrows.specs.OfficeTables.{contracts, positions};
ghost use Rattle.hh_sqlrows.specs.Reads.{FindsSettled, ReadsSettled};
ghost use Rattle.hh_sqlparts.specs.steps.Moved.{buyer_of, seller_of, HasBoth, ServesPositions};
ghost use Rattle.hh_sqlparts.specs.steps.Named.{volume_key_of, FindsNamed, IsAmong};

use crate::named_names::{names_in, names_of};
use hh_names::Account;
use hh_num::Kwh;
use hh_rows::{ContractKey, ContractRow, Row};
use hh_rules::{Position, PositionKey, Positions};
use hh_sqlrows::tables::Contracts;
use hh_sqlrows::{RowFault, select_each, tables};
use hh_tables::TreeTable;
use sqlite::{Alter, Connection};
use std::alloc::{AllocError, Global};
use std::collections::BTreeSet;

/// The volumes in force under the keys of contract rows.
pub(crate) fn select_volumes_named<S: Alter>(
    conn: &mut Connection<S>,
    alloc: Global,
    rows: &[Row],
) -> Result<TreeTable<ContractKey, Kwh>, RowFault>
    ensures frame { ReadsSettled (state S.Store conn.old) (state S.Store conn.new) result }
    ensures value { FindsSettled S.Store conn.old conn.new result
        (λ trees. FindsNamed contract_key_cmp volume_key_of rows.now
        (rows_under_keys contracts trees)) }
{
    let names = names_in(alloc, rows)?;
    let found = select_each::<Contracts, S>(conn, alloc, &names)?;
    Ok(volumes_of(alloc, &found)?)
}

/// The positions of the sellers and the buyers of contract rows.
pub(crate) fn select_positions_named<S: Alter>(
    conn: &mut Connection<S>,
    alloc: Global,
    rows: &[Row],
) -> Result<Positions, RowFault>
    ensures frame { ReadsSettled (state S.Store conn.old) (state S.Store conn.new) result }
    ensures value { FindsSettled S.Store conn.old conn.new result
        (λ trees. ServesPositions rows.now (rows_under_keys positions trees)) }
{
    let names = position_keys_in(alloc, rows)?;
    let found = select_each::<tables::Positions, S>(conn, alloc, &names)?;
    Ok(positions_of(alloc, &found)?)
}

/// The keys of the positions of the sellers and the buyers of contract rows, each once.
fn position_keys_in(alloc: Global, rows: &[Row]) -> Result<Vec<PositionKey>, AllocError>
    ensures sellers { IfOk result (λ keys.
        All (IsAmong position_key_cmp seller_of keys.items) rows.now) }
    ensures buyers { IfOk result (λ keys.
        All (IsAmong position_key_cmp buyer_of keys.items) rows.now) }
{
    let mut keys = BTreeSet::new(alloc);
    for row in rows {
        if let Row::Contract(row) = row {
            insert_both(&mut keys, row)?;
        }
    }
    names_of(alloc, keys)
}

/// Adds the keys of the positions of a contract row's seller and buyer to a set.
fn insert_both(keys: &mut BTreeSet<PositionKey>, row: &ContractRow) -> Result<(), AllocError>
    ensures { OnOk result (HasBoth row.now keys.old keys.new) }
{
    let counterparties = row.contract.counterparties;
    keys.insert(key_of(row, counterparties.seller))?;
    keys.insert(key_of(row, counterparties.buyer))?;
    Ok(())
}

/// The key of the position of an account that a contract row names.
fn key_of(row: &ContractRow, account: Account) -> PositionKey
    ensures { result ≡ position_key row.now account }
{
    PositionKey {
        at: row.key.at,
        account,
    }
}

/// The table of these volumes.
fn volumes_of(
    alloc: Global,
    rows: &[(ContractKey, Kwh)],
) -> Result<TreeTable<ContractKey, Kwh>, AllocError>
    ensures { IfOk result (λ table. table ≡ put_all contract_key_cmp rows.now []) }
{
    let mut volumes = TreeTable::new(alloc);
    for row in rows {
        volumes.put(row.0, row.1)?;
    }
    Ok(volumes)
}

/// The positions of these rows.
fn positions_of(alloc: Global, rows: &[(PositionKey, Position)]) -> Result<Positions, AllocError>
    ensures { IfOk result (λ positions. positions ≡ put_all position_key_cmp rows.now []) }
{
    let mut positions = Positions::new(alloc);
    for row in rows {
        positions.hold(row.0, row.1)?;
    }
    Ok(positions)
}
