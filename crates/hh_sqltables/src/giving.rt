//! Rows that a statement selects, and that are given to a taker one after the other.

ghost use Rattle.std.specs.Prelude.{◌≡◌, false, ℕ, List, option_copied, option_map, Some, IfOk, ⊤};
ghost use Rattle.sqlite_value.specs.Order.{Row as SqlRow};
ghost use Rattle.sqlite.specs.Held.{Held, state};
ghost use Rattle.sqlite.specs.State.{Survives};
ghost use Rattle.sqlite.specs.Values.{bound};
ghost use Rattle.hh_devices.specs.DeviceChanges.{change};
ghost use Rattle.hh_keyed_rows.specs.KeyedRows.{entry_in};
ghost use Rattle.hh_sqltables.specs.Giving.{GivesSo, GivesToNew};
ghost use Rattle.hh_sqltables.specs.steps.Answers.{IsPlainOf, IsRead};
ghost use Rattle.hh_sqltables.specs.steps.Streams.{HasTaken, IsBegun, OfPlain, TakesNext};
ghost use Rattle.hh_sqltables.specs.Frames.{Reads, StaysOpen, Stood};

use crate::taker::RowTaker;
use hh_devices::Sink;
use hh_keyed_rows::{Columned, OutputFault, RowFault, read_entry};
use sqlite::types::ValueRef;
use sqlite::{Alter, Connection, Row, Rows};
use std::alloc::Global;

/// The key and the value of the next row that a statement selects, if there is another row.
fn next_entry<S: Alter, K: Columned + Drop, V: Columned + Drop>(
    rows: &mut Rows<'_, S>,
    alloc: Global,
) -> Result<Option<(K, V)>, RowFault>
    ensures same_reference { rows.new.conn.ghost_name ≡ rows.old.conn.ghost_name }
    ensures next { (start : Held S) (sql : List ℕ) (params : SqlRow) (taken : List (K × V))
        → HasTaken S.Store K.codec V.codec sql params start rows.old.conn.now taken
        → TakesNext S.Store K.codec V.codec sql params start rows.new.conn.now taken result }
    ensures stood { Stood (state S.Store rows.old.conn.now) (state S.Store rows.new.conn.now) }
    ensures mode { rows.old.conn.now.in_transaction ≡ false
        → rows.new.conn.now.in_transaction ≡ false }
    ensures stays { StaysOpen (state S.Store rows.old.conn.now) (state S.Store rows.new.conn.now)
        result }
    ensures survives { Survives (state S.Store rows.old.conn.now)
        (state S.Store rows.new.conn.now) (λ _. ⊥) }
{
    match rows.advance() {
        Ok(()) => entry_of(rows.get(), alloc),
        Err(error) => Err(RowFault::from(error)),
    }
}

/// The key and the value of a row, if there is one.
fn entry_of<K: Columned + Drop, V: Columned + Drop>(
    row: Option<&Row>,
    alloc: Global,
) -> Result<Option<(K, V)>, RowFault>
    ensures { IfOk result (λ entry. option_map (entry_in K.codec V.codec) (option_copied row.entry)
        ≡ option_map (λ e. Some e) entry) }
{
    match row {
        Some(row) => Ok(Some(read_entry(alloc, row)?)),
        None => Ok(None),
    }
}

/// Gives a taker the keys and the values that a query selects. Each is taken before the next row is read.
pub(crate) fn give_entries<
    S: Alter,
    K: Columned + Drop,
    V: Columned + Drop,
    T: RowTaker<K, V>,
    O: Sink,
>(
    conn: &mut Connection<S>,
    alloc: Global,
    text: &str,
    params: &[ValueRef<'_>],
    taker: &mut T,
    out: &mut O,
) -> Result<(), OutputFault>
    ensures frame { let old = state S.Store conn.old in
        Reads ⊤ (IsPlainOf old text.now) old (state S.Store conn.new) result }
    ensures gives { let old = state S.Store conn.old in
        let new = state S.Store conn.new in
        GivesToNew (change O.taken O.failures) T.has T.stopped out.old out.new taker.old taker.new
        (λ has stopped. GivesSo has stopped (λ taken. OfPlain old new text.now
        (IsRead K.codec V.codec text.now (bound params.now) old new taken))
        (λ taken. OfPlain old new text.now
        (IsBegun K.codec V.codec text.now (bound params.now) old taken)) result) }
{
    let mut rows = match conn.query(text, params) {
        Ok(rows) => rows,
        Err(error) => return Err(OutputFault::from(RowFault::from(error))),
    };
    'rows: for _ in 0..u64::MAX {
        let Some((key, value)) = next_entry(&mut rows, alloc)? else {
            return Ok(());
        };
        taker.take_row(&key, &value, out)?;
    }
    // No table has that many rows.
    Err(OutputFault::Store)
}

/// Gives a taker the keys and the values that a query selects by the columns of one value.
pub(crate) fn give_by<
    S: Alter,
    A: Columned,
    K: Columned + Drop,
    V: Columned + Drop,
    T: RowTaker<K, V>,
    O: Sink,
>(
    conn: &mut Connection<S>,
    alloc: Global,
    text: &str,
    asked: &A,
    taker: &mut T,
    out: &mut O,
) -> Result<(), OutputFault>
    ensures frame { let old = state S.Store conn.old in
        Reads ⊤ (IsPlainOf old text.now) old (state S.Store conn.new) result }
    ensures gives { let old = state S.Store conn.old in
        let new = state S.Store conn.new in
        GivesToNew (change O.taken O.failures) T.has T.stopped out.old out.new taker.old taker.new
        (λ has stopped. GivesSo has stopped (λ taken. OfPlain old new text.now
        (IsRead K.codec V.codec text.now (A.codec.write asked.now) old new taken))
        (λ taken. OfPlain old new text.now
        (IsBegun K.codec V.codec text.now (A.codec.write asked.now) old taken)) result) }
{
    let mut params = Vec::new(alloc);
    asked.to_columns(&mut params)?;
    give_entries(conn, alloc, text, params.as_slice(), taker, out)
}
