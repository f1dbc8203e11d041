//! Making an office's tables.

ghost use Rattle.std.specs.Prelude.{◌≡◌, ◌<◌, ◌+◌, [], slice_index_or, OnOk};
ghost use Rattle.sqlite.specs.Held.{state};
ghost use Rattle.hh_sqlrows.specs.Making.{IsMadeUpTo};
ghost use Rattle.hh_sqlrows.specs.Office.{IsEmptyOffice};
ghost use Rattle.hh_sqlrows.specs.Reads.{Inside, WritesInside};
ghost use Rattle.hh_sqlrows.specs.steps.MakingTexts.{texts};

use crate::tables::{
    contracts, credits, files, leads, marks, meters, parties, positions, postings, prices,
    reallocations, references, results, runs, settings, touched, units,
};
use hh_sqltables::create_table;
use sqlite::{Alter, Error, Transaction};

/// How many tables an office has.
const TABLES: usize = 17;

/// The statement that makes the table with this number.
fn text_of(at: usize) -> &'static str
    requires { at < 17 }
    ensures { result.now ≡ slice_index_or texts at [] }
{
    match at {
        0 => settings::CREATION,
        1 => parties::CREATION,
        2 => units::CREATION,
        3 => meters::CREATION,
        4 => prices::CREATION,
        5 => references::CREATION,
        6 => contracts::CREATION,
        7 => reallocations::CREATION,
        8 => files::CREATION,
        9 => runs::CREATION,
        10 => results::CREATION,
        11 => credits::CREATION,
        12 => postings::CREATION,
        13 => positions::CREATION,
        14 => touched::CREATION,
        15 => marks::CREATION,
        _ => leads::CREATION,
    }
}

/// Makes the table with this number, in a database that has the tables before it.
fn make_table<S: Alter>(tx: &mut Transaction<'_, S>, at: usize) -> Result<usize, Error>
    requires { at < 17 }
    ensures frame { WritesInside S.Store tx.old tx.new result }
    ensures makes { let old = state S.Store tx.old.conn.now in
        let new = state S.Store tx.new.conn.now in
        Inside old new (IsMadeUpTo at old.now → OnOk result (IsMadeUpTo (at + 1) new.now)) }
{
    create_table(tx, text_of(at))
}

/// Makes all tables, in a database that has none.
pub fn make_tables<S: Alter>(tx: &mut Transaction<'_, S>) -> Result<(), Error>
    ensures frame { WritesInside S.Store tx.old tx.new result }
    ensures makes { let old = state S.Store tx.old.conn.now in
        let new = state S.Store tx.new.conn.now in
        Inside old new (IsMadeUpTo 0 old.now → OnOk result (IsEmptyOffice new.now)) }
{
    'tables: for at in 0..TABLES {
        make_table(tx, at)?;
    }
    Ok(())
}
