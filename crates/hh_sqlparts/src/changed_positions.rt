//! The positions that rows of a load change.

ghost use Rattle.std.specs.Prelude.{◌≡◌, OnOk};
ghost use Rattle.std.specs.FinMap.{put};
ghost use Rattle.hh_tables.specs.Tables.{put_all};
ghost use Rattle.hh_rows.specs.Keys.{contract_key_cmp};
ghost use Rattle.hh_rules.specs.Positions.{position_key_cmp, with_replaced};
ghost use Rattle.hh_kept_rows.specs.Keeping.{positions_with, replaced_by};
ghost use Rattle.sqlite.specs.Held.{state};
ghost use Rattle.hh_sqlrows.specs.Forms.{rows_under_keys};
ghost use Rattle.hh_sqlrows.specs.OfficeTables.{contracts, positions};
ghost use Rattle.hh_sqlrows.specs.Reads.{FindsSettled, ReadsSettled};

use crate::moved_positions::{select_positions_named, select_volumes_named};
use hh_names::Contract;
use hh_num::Kwh;
use hh_rows::{ContractKey, ContractRow, Row};
use hh_rules::{Position, PositionKey, Positions};
use hh_sqlrows::RowFault;
use hh_tables::TreeTable;
use sqlite::{Alter, Connection};
use std::alloc::{AllocError, Global};

/// The positions that contract rows change, as they are after these rows, taken one after the other. Rows
/// of other kinds change none.
pub fn select_positions_after<S: Alter>(
    conn: &mut Connection<S>,
    alloc: Global,
    rows: &[Row],
) -> Result<Vec<(PositionKey, Position)>, RowFault>
    ensures frame { ReadsSettled (state S.Store conn.old) (state S.Store conn.new) result }
    ensures value { FindsSettled S.Store conn.old conn.new result
        (λ trees written.
        put_all position_key_cmp written.items (rows_under_keys positions trees)
        ≡ positions_with rows.now (rows_under_keys contracts trees)
        (rows_under_keys positions trees)) }
{
    let mut volumes = select_volumes_named(conn, alloc, rows)?;
    let mut positions = select_positions_named(conn, alloc, rows)?;
    move_by_rows(rows, &mut volumes, &mut positions)?;
    Ok(positions.rows(alloc)?)
}

/// Changes positions by rows that come one after the other. `volumes` are in force before them.
fn move_by_rows(
    rows: &[Row],
    volumes: &mut TreeTable<ContractKey, Kwh>,
    positions: &mut Positions,
) -> Result<(), AllocError>
    ensures { OnOk result (positions.new ≡ positions_with rows.now volumes.old positions.old) }
{
    for row in rows {
        if let Row::Contract(row) = row {
            move_by_row(row, volumes, positions)?;
        }
    }
    Ok(())
}

/// Changes the positions of a contract row's seller and buyer. The row's volume is in force afterwards.
fn move_by_row(
    row: &ContractRow,
    volumes: &mut TreeTable<ContractKey, Kwh>,
    positions: &mut Positions,
) -> Result<(), AllocError>
    ensures moved { OnOk result (positions.new
        ≡ with_replaced (replaced_by row.now volumes.old) row.now positions.old) }
    ensures in_force { OnOk result (volumes.new
        ≡ put contract_key_cmp row.now.key row.now.contract.volume volumes.old) }
{
    let old = replaced_by(row, volumes);
    positions.replace(old.as_ref(), row)?;
    volumes.put(row.key, row.contract.volume)
}

/// The contract row that this row replaces, given the volume in force under its key.
fn replaced_by(row: &ContractRow, volumes: &TreeTable<ContractKey, Kwh>) -> Option<ContractRow>
    ensures { result ≡ replaced_by row.now volumes.now }
{
    match volumes.get(&row.key) {
        Some(volume) => Some(ContractRow {
            key: row.key,
            contract: Contract {
                counterparties: row.contract.counterparties,
                volume,
            },
        }),
        None => None,
    }
}
