//! Reading a part of what is registered and in force.

ghost use Rattle.std.specs.Prelude.{◌≡◌, IfOk, IsTrue};
ghost use Rattle.sqlite.specs.Held.{state};
ghost use Rattle.hh_rules.specs.RegisterView.{ServesFor};
ghost use Rattle.hh_states.specs.DaySettlement.{periods_on};
ghost use Rattle.hh_states.specs.Reads.{contracts_of};
ghost use Rattle.hh_store.specs.DayReads.{IsDayData};
ghost use Rattle.hh_sqlparts.specs.Parts.{whole_of};
ghost use Rattle.hh_rows.specs.declared.settings.Settings.{Settings};
ghost use Rattle.hh_states.specs.Beside.{agrees};
ghost use Rattle.hh_sqlrows.specs.Contents.{beside_in, content_of, registered_of};
ghost use Rattle.hh_sqlrows.specs.Reads.{OfSettled, ReadsSettled};

use hh_keyed_rows::RowFault;
use hh_names::Account;
use hh_rows::{ContractRow, LeadMinutes, Row};
use hh_rules::Register;
use hh_sqlparts::{
    contracts_by_their_rows, parts_of_parts, read_by_what_is_beside, select_contracts_of_day,
    select_day, select_day_beside, select_named,
};
use hh_store::{DayData, StoreFault};
use hh_time::{Day, SettlementDate};
use sqlite::{Alter, Connection};
use std::alloc::Global;

/// A register that judges these rows, and is changed by them, in the same way as a register of everything
/// that is registered and in force.
pub(crate) fn register_of<S: Alter>(
    conn: &mut Connection<S>,
    alloc: Global,
    lead_minutes: LeadMinutes,
    rows: &[Row],
) -> Result<Register, StoreFault>
    ensures frame { ReadsSettled (state S.Store conn.old) (state S.Store conn.new) result }
    ensures value { let old = state S.Store conn.old in
        let new = state S.Store conn.new in
        OfSettled old new (IfOk result
        (ServesFor rows.now (whole_of lead_minutes (registered_of old.now.trees)))) }
{
    // Does nothing, but carries a law for the proof: a part of a part suffices.
    parts_of_parts();
    let part = select_named(conn, alloc, rows)?;
    part.register_for(alloc, lead_minutes, rows)
}

/// The contract rows that are in force on a date and name an account, by Settlement Period, then by the
/// bytes of their references.
pub(crate) fn contracts_of_account<S: Alter>(
    conn: &mut Connection<S>,
    alloc: Global,
    account: &Account,
    date: SettlementDate,
) -> Result<Vec<ContractRow>, RowFault>
    ensures frame { ReadsSettled (state S.Store conn.old) (state S.Store conn.new) result }
    ensures value { let old = state S.Store conn.old in
        let new = state S.Store conn.new in
        OfSettled old new (IfOk result (λ rows.
        rows.items ≡ contracts_of account.now date (registered_of old.now.trees))) }
{
    // Does nothing, but carries a law for the proof: the rows of the date suffice.
    contracts_by_their_rows();
    let part = select_contracts_of_day(conn, alloc, date)?;
    Ok(part.contracts(alloc, account, date)?)
}

/// What the Settlement Periods of a day are settled from, or their results if they are as the latest run of
/// the date settled them. It also tells what is missing.
pub(crate) fn data_of_day<S: Alter>(
    conn: &mut Connection<S>,
    alloc: Global,
    day: &Day,
) -> Result<DayData, RowFault>
    ensures frame { ReadsSettled (state S.Store conn.old) (state S.Store conn.new) result }
    ensures value { let old = state S.Store conn.old in
        let new = state S.Store conn.new in
        OfSettled old new ((settings : Settings)
        → IsTrue (agrees (content_of settings old.now.trees) (beside_in old.now.trees))
        → IfOk result (IsDayData (registered_of old.now.trees)
        (periods_on day.now.date day.now.count))) }
{
    // Does nothing, but carries a law for the proof: the rows of the date and what is kept beside them
    // suffice.
    read_by_what_is_beside();
    let part = select_day(conn, alloc, day.date)?;
    let beside = select_day_beside(conn, alloc, day.date)?;
    Ok(part.day_data_beside(alloc, day, &beside)?)
}
