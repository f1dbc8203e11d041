//! The contracts of a date, with the sellers and buyers of their references.

ghost use Rattle.std.specs.Prelude.{◌≡◌, map, IfOk};
ghost use Rattle.sqlite.specs.Held.{state};
ghost use Rattle.hh_kept_rows.specs.DayRows.{HasContractsOn};
ghost use Rattle.hh_sqlrows.specs.Contents.{registered_of};
ghost use Rattle.hh_sqlrows.specs.Reads.{FindsOffice, FindsSettled, ReadsSettled};
ghost use Rattle.hh_sqlparts.specs.steps.DayParts.{contracts_on, references_in, with_day_contracts};

use crate::tables::table_of;
use hh_kept_rows::KeptRegister;
use hh_names::Reference;
use hh_num::Kwh;
use hh_rows::ContractKey;
use hh_sqlrows::tables::{Contracts, References};
use hh_sqlrows::{RowFault, select_each, select_under};
use hh_tables::ListTable;
use hh_time::SettlementDate;
use sqlite::{Alter, Connection};
use std::alloc::{AllocError, Global};

/// The contracts of a date, with the sellers and buyers of their references. The register contains nothing
/// else.
pub fn select_contracts_of_day<S: Alter>(
    conn: &mut Connection<S>,
    alloc: Global,
    date: SettlementDate,
) -> Result<KeptRegister, RowFault>
    ensures frame { ReadsSettled (state S.Store conn.old) (state S.Store conn.new) result }
    ensures value { FindsSettled S.Store conn.old conn.new result
        (λ trees. HasContractsOn date (registered_of trees)) }
{
    let mut part = KeptRegister::new(alloc);
    select_contracts(conn, alloc, &mut part, date)?;
    Ok(part)
}

/// Adds the contracts of a date to a part, with the sellers and buyers of their references.
pub(crate) fn select_contracts<S: Alter>(
    conn: &mut Connection<S>,
    alloc: Global,
    part: &mut KeptRegister,
    date: SettlementDate,
) -> Result<(), RowFault>
    ensures frame { ReadsSettled (state S.Store conn.old) (state S.Store conn.new) result }
    ensures value { FindsSettled S.Store conn.old conn.new result
        (λ trees _. part.new ≡ with_day_contracts date (registered_of trees) part.old) }
{
    part.contracts = volumes_on(conn, alloc, date)?;
    let named = references_in(alloc, part.contracts.rows())?;
    part.references = table_of(select_each::<References, S>(conn, alloc, &named)?)?;
    Ok(())
}

/// The volumes of the contracts of a date.
fn volumes_on<S: Alter>(
    conn: &mut Connection<S>,
    alloc: Global,
    date: SettlementDate,
) -> Result<ListTable<ContractKey, Kwh>, RowFault>
    ensures frame { ReadsSettled (state S.Store conn.old) (state S.Store conn.new) result }
    ensures value { FindsOffice S.Store conn.old conn.new result
        (λ trees table. table ≡ contracts_on date (registered_of trees)) }
{
    match select_under::<Contracts, SettlementDate, S>(conn, alloc, &date) {
        Ok(rows) => table_of(rows),
        Err(fault) => Err(fault),
    }
}

/// The references of contracts. If neighbours have the same reference, it is listed once.
fn references_in(
    alloc: Global,
    contracts: &[(ContractKey, Kwh)],
) -> Result<Vec<Reference>, AllocError>
    ensures { IfOk result (λ named. named.items ≡ references_in contracts.now) }
{
    let mut named = references_of(alloc, contracts)?;
    named.dedup();
    Ok(named)
}

/// The reference of each contract.
fn references_of(
    alloc: Global,
    contracts: &[(ContractKey, Kwh)],
) -> Result<Vec<Reference>, AllocError>
    ensures { IfOk result (λ named. named.items ≡ map (λ e. e.0.reference) contracts.now) }
{
    contracts.iter().map(|row| row.0.reference).collect(alloc)
}
