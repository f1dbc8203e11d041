//! Tables in memory, kept as trees of rows by their keys.

ghost use Rattle.std.specs.Prelude.{◌≡◌, [], ◌∷◌, IfOk, IsSome, OnOk, OnErr};
ghost use Rattle.std.specs.BTreeMap.{get};
ghost use Rattle.std.specs.FinMap.{find, put};
ghost use Rattle.hh_tables.specs.Ends.{last_up_to, rows_from};
ghost use Rattle.hh_tables.specs.Tables.{IsTable, put_all, without};
ghost use Rattle.hh_tables.specs.steps.Trees.{Inserts, InsertsTwo, PutsBack};

use std::alloc::{AllocError, Global};
use std::collections::BTreeMap;
use std::collections::btree_map::Range;
use std::marker::Model;

/// Rows of columns under keys, at most one under each. Contracts see the list of the rows, in the order
/// of their keys.
#[derive(Drop)]
pub struct TreeTable<K: Ord, V> {
    rows: BTreeMap<K, V>,
}

impl<K: Ord, V> Model for TreeTable<K, V> {
    ghost use Rattle.std.specs.Prelude.{List};
    ghost use Rattle.hh_tables.specs.Tables.{IsTable};

    ghost Value = { List (K × V) };

    ghost view = { λ t. t.rows.entries };

    ghost invariant = { λ t. IsTable K.cmp t.rows.entries };
}

impl<K: Ord + Copy, V: Copy> TreeTable<K, V> {
    /// The table without rows. Takes no memory.
    pub fn new(alloc: Global) -> Self
        ensures { result ≡ [] }
    {
        TreeTable {
            rows: BTreeMap::new(alloc),
        }
    }

    /// The columns of the row under a key, if there is one.
    pub fn get(&self, key: &K) -> Option<V>
        ensures value { result ≡ find K.cmp key.now self.now }
        ensures rising { IsTable K.cmp self.now }
    {
        self.rows.get(key).copied()
    }

    /// Puts a row into the table, replacing the row under its key if there is one. `Err` only if
    /// memory is refused: the table is then as it was.
    pub fn put(&mut self, key: K, value: V) -> Result<(), AllocError>
        ensures ok { OnOk result (self.new ≡ put K.cmp key value self.old) }
        ensures err { OnErr result (self.new ≡ self.old) }
    {
        self.rows.insert(key, value)?;
        Ok(())
    }

    /// Puts two rows into the table, one after the other, each replacing the row under its key if there
    /// is one. `Err` only if memory is refused: the table is then as it was.
    pub fn put_two(&mut self, first: (K, V), second: (K, V)) -> Result<(), AllocError>
        ensures ok { OnOk result (self.new ≡ put_all K.cmp (first ∷ second ∷ []) self.old) }
        ensures err { OnErr result (self.new ≡ self.old) }
    {
        put_two_into(&mut self.rows, first, second)
    }

    /// Takes out the row under a key, if there is one. Takes no memory, and can't fail.
    pub fn remove(&mut self, key: &K)
        ensures { self.new ≡ without K.cmp key.now self.old }
    {
        self.rows.remove(key);
    }

    /// The last row whose key is this one or below it, if there is one.
    pub fn last_up_to(&self, key: &K) -> Option<(K, V)>
        ensures value { result ≡ last_up_to K.cmp key.now self.now }
        ensures rising { IsTable K.cmp self.now }
    {
        let (found, value) = self.rows.range(..=*key).next_back()?;
        Some((*found, *value))
    }

    /// The rows whose keys are this one or above it, in the order of their keys. Takes no memory.
    pub fn rows_from(&self, key: &K) -> Range<'_, K, V>
        ensures value { result ≡ rows_from K.cmp key.now self.now }
        ensures rising { IsTable K.cmp self.now }
    {
        self.rows.range(*key..)
    }

    /// The rows with their keys, in the order of the keys. `Err` only if memory is refused.
    pub fn rows(&self, alloc: Global) -> Result<Vec<(K, V)>, AllocError>
        ensures { IfOk result (λ rows. rows.items ≡ self.now) }
    {
        let mut rows = Vec::with_capacity(alloc, self.rows.len())?;
        for (key, value) in &self.rows {
            rows.push((*key, *value))?;
        }
        Ok(rows)
    }
}

/// Puts a row into each of two tables, replacing the row under its key if there is one. `Err` only if
/// memory is refused: both tables are then as they were.
pub fn put_both<K: Ord + Copy, V: Copy, L: Ord + Copy, W: Copy>(
    first: &mut TreeTable<K, V>,
    row: (K, V),
    second: &mut TreeTable<L, W>,
    second_row: (L, W),
) -> Result<(), AllocError>
    ensures first { OnOk result (first.new ≡ put K.cmp row.0 row.1 first.old) }
    ensures second { OnOk result (second.new ≡ put L.cmp second_row.0 second_row.1 second.old) }
    ensures first_err { OnErr result (first.new ≡ first.old) }
    ensures second_err { OnErr result (second.new ≡ second.old) }
{
    put_into_both(&mut first.rows, row, &mut second.rows, second_row)
}

/// Puts a row into each of two trees. If memory is refused, both are left as they were.
fn put_into_both<K: Ord + Copy, V: Copy, L: Ord + Copy, W: Copy>(
    first: &mut BTreeMap<K, V>,
    row: (K, V),
    second: &mut BTreeMap<L, W>,
    second_row: (L, W),
) -> Result<(), AllocError>
    ensures first { OnOk result (Inserts K.cmp row first.old.entries first.new.entries) }
    ensures second { OnOk result (Inserts L.cmp second_row second.old.entries second.new.entries) }
    ensures first_err { OnErr result (first.new.entries ≡ first.old.entries) }
    ensures second_err { OnErr result (second.new.entries ≡ second.old.entries) }
{
    let before = first.insert(row.0, row.1)?;
    if let Err(refused) = second.insert(second_row.0, second_row.1) {
        put_back(first, &row.0, before);
        return Err(refused.into());
    }
    Ok(())
}

/// Puts two rows into a tree, one after the other. If memory is refused, it is left as it was.
fn put_two_into<K: Ord + Copy, V: Copy>(
    rows: &mut BTreeMap<K, V>,
    first: (K, V),
    second: (K, V),
) -> Result<(), AllocError>
    ensures ok { OnOk result (InsertsTwo K.cmp first second rows.old.entries rows.new.entries) }
    ensures err { OnErr result (rows.new.entries ≡ rows.old.entries) }
{
    let before = rows.insert(first.0, first.1)?;
    if let Err(refused) = rows.insert(second.0, second.1) {
        put_back(rows, &first.0, before);
        return Err(refused.into());
    }
    Ok(())
}

/// Restores the row that a key had before, or takes the key out if it had none.
fn put_back<K: Ord + Copy, V: Copy>(map: &mut BTreeMap<K, V>, key: &K, before: Option<V>)
    requires { IsSome before → IsSome (get K.cmp map.old key.now) }
    ensures { PutsBack K.cmp key.now before map.old.entries map.new.entries }
{
    match before {
        Some(value) => {
            if let Some(place) = map.get_mut(key) {
                *place = value;
            }
        }
        None => {
            map.remove(key);
        }
    }
}
