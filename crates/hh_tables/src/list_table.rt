//! Tables in memory, kept as lists of rows in the order of their keys.

ghost use Rattle.std.specs.Prelude.{◌≡◌, ◌<◌, ◌≤◌, ◌++◌, ◌&&◌, [], length, take, true, IfOk, IfSome, IsSome, OnErr, OnOk, Some};
ghost use Rattle.std.specs.Option.{option_copied};
ghost use Rattle.std.specs.FinMap.{find, is_sorted, put};
ghost use Rattle.std.specs.FinMap.Entries.{below_all};
ghost use Rattle.std.specs.List.{prefix_len, HoldsAt};
ghost use Rattle.std.specs.declared.cmp.Ordering.TheVariants.{Equal};
ghost use Rattle.std.specs.List.Sorted.{IsSortedByKey, IsStableByKey};
ghost use Rattle.hh_tables.specs.steps.Merges.{is_up_to, AreUpTo};
ghost use Rattle.hh_tables.specs.Places.{IsPlaceOf};
ghost use Rattle.hh_tables.specs.Tables.{IsTable, put_all, with_before};

use std::alloc::{AllocError, Global};
use std::marker::Model;

/// Rows of columns under keys, at most one under each, kept as a list. `put_row` changes the list in
/// place; for many rows `with_rows` makes a new table. Contracts see the list of the rows, in the order
/// of their keys.
#[derive(Drop)]
pub struct ListTable<K: Ord, V> {
    rows: Vec<(K, V)>,
}

impl<K: Ord, V> Model for ListTable<K, V> {
    ghost use Rattle.std.specs.Prelude.{List};
    ghost use Rattle.hh_tables.specs.Tables.{IsTable};

    ghost Value = { List (K × V) };

    ghost view = { λ t. t.rows.items };

    ghost invariant = { λ t. IsTable K.cmp t.rows.items };
}

impl<K: Ord + Copy, V> ListTable<K, V> {
    /// The table without rows. Takes no memory.
    pub fn new(alloc: Global) -> Self
        ensures { result ≡ [] }
    {
        ListTable {
            rows: Vec::new(alloc),
        }
    }

    /// How many rows there are.
    pub fn len(&self) -> usize
        ensures { result ≡ length self.now }
    {
        self.rows.len()
    }

    /// The rows, in the order of their keys.
    pub fn rows(&self) -> &[(K, V)]
        ensures value { result.now ≡ self.now }
        ensures rising { IsTable K.cmp self.now }
    {
        &self.rows
    }

    /// The columns of the row under a key, if there is one, without a copy.
    pub fn find(&self, key: &K) -> Option<&V>
        ensures value { option_copied result ≡ find K.cmp key.now self.now }
        ensures rising { IsTable K.cmp self.now }
    {
        match self.rows.binary_search_by_key(key, |row| row.0) {
            Ok(place) => Some(&self.rows[place].1),
            Err(_) => None,
        }
    }
}

impl<K: Ord + Copy, V: Drop> ListTable<K, V> {
    /// The table of these rows, if their keys rise. Takes the list over without a copy, and makes one
    /// comparison a row.
    pub fn of_rows(rows: Vec<(K, V)>) -> Option<Self>
        ensures value { IfSome result (λ table. table ≡ rows.items) }
        ensures rises { IsSome result → IsTable K.cmp rows.items }
        ensures rising { IsTable K.cmp rows.items → IsSome result }
    {
        if are_rising(&rows) {
            Some(ListTable { rows })
        } else {
            None
        }
    }

    /// Puts a row into the table, replacing the row under its key if there is one. `Err` only if
    /// memory is refused: the table is then as it was.
    pub fn put_row(&mut self, key: K, value: V) -> Result<(), AllocError>
        ensures ok { OnOk result (self.new ≡ put K.cmp key value self.old) }
        ensures err { OnErr result (self.new ≡ self.old) }
    {
        match self.rows.binary_search_by_key(&key, |row| row.0) {
            Ok(place) => self.rows[place].1 = value,
            Err(place) => self.rows.insert(place, (key, value))?,
        }
        Ok(())
    }
}

impl<K: Ord + Copy, V: Copy> ListTable<K, V> {
    /// Puts a row into the table, replacing the row under its key if there is one. Looks for that row at
    /// this place first, which may be any; if it is there, that takes one comparison. `Err` only if
    /// memory is refused: the table is then as it was.
    pub fn put_near(&mut self, place: usize, key: K, value: V) -> Result<(), AllocError>
        ensures ok { OnOk result (self.new ≡ put K.cmp key value self.old) }
        ensures err { OnErr result (self.new ≡ self.old) }
    {
        if self.is_at(place, &key) {
            self.rows[place].1 = value;
            return Ok(());
        }
        self.put_row(key, value)
    }

    /// Gives a key the row that it had before one was put under it, or takes its row out if it had none.
    /// Takes no memory, and can't fail.
    pub fn put_back(&mut self, key: &K, before: Option<V>)
        requires { IsSome before → IsSome (find K.cmp key.now self.old) }
        ensures { self.new ≡ with_before K.cmp key.now before self.old }
    {
        let Ok(place) = self.rows.binary_search_by_key(key, |row| row.0) else {
            return;
        };
        match before {
            Some(value) => self.rows[place].1 = value,
            None => {
                self.rows.remove(place);
            }
        }
    }

    /// Whether the row at a place has this key.
    fn is_at(&self, place: usize, key: &K) -> bool
        ensures inside { result ≡ true → place < length self.now }
        ensures same { result ≡ true
            → HoldsAt (λ row. K.cmp row.0 key.now ≡ Equal) self.now place }
    {
        if place >= self.rows.len() {
            return false;
        }
        self.rows[place].0.cmp(key).is_eq()
    }

    /// The columns of the row under a key, if there is one.
    pub fn get(&self, key: &K) -> Option<V>
        ensures value { result ≡ find K.cmp key.now self.now }
        ensures rising { IsTable K.cmp self.now }
    {
        self.find(key).copied()
    }

    /// How many rows have lower keys than this one. If the key has a row, this is its place.
    pub fn count_below(&self, key: &K) -> usize
        ensures { IsPlaceOf K.cmp key.now self.now result }
    {
        self.rows.partition_point(|row| row.0.cmp(key).is_lt())
    }

    /// The columns of the row under a key, if there is one. Looks for the row at this place first, which
    /// may be any; if it is there, that takes one comparison.
    pub fn get_near(&self, place: usize, key: &K) -> Option<V>
        ensures { result ≡ find K.cmp key.now self.now }
    {
        if self.is_at(place, key) {
            return Some(self.rows[place].1);
        }
        self.get(key)
    }

    /// A new table: this one with rows put into it, each replacing the row of its key. Of several rows of
    /// one key the last counts. `Err` only if memory is refused.
    pub fn with_rows(&self, alloc: Global, rows: Vec<(K, V)>) -> Result<ListTable<K, V>, AllocError>
        ensures { IfOk result (λ table. table ≡ put_all K.cmp rows.items self.now) }
    {
        let sorted = in_order_of_keys(rows)?;
        let rows = merged(alloc, &self.rows, &sorted)?;
        Ok(ListTable { rows })
    }

    /// Whether these rows come behind those of the table: their keys rise, and all are above those of the
    /// table. Makes one comparison a row.
    pub fn come_behind(&self, rows: &[(K, V)]) -> bool
        ensures { result ≡ is_sorted K.cmp (self.now ++ rows.now) }
    {
        match self.rows.last() {
            Some(last) => are_rising_above(&last.0, rows),
            None => are_rising(rows),
        }
    }

    /// Moves rows that come behind those of the table to its end. An empty table takes their list over.
    /// `Err` only if memory is refused: the table is then as it was.
    pub fn put_behind(&mut self, rows: Vec<(K, V)>) -> Result<(), AllocError>
        requires behind { IsTable K.cmp (self.old ++ rows.items) }
        ensures ok { OnOk result (self.new ≡ put_all K.cmp rows.items self.old) }
        ensures at_end { OnOk result (self.new ≡ self.old ++ rows.items) }
        ensures err { OnErr result (self.new ≡ self.old) }
    {
        if self.rows.is_empty() {
            self.rows = rows;
            return Ok(());
        }
        let mut rows = rows;
        self.rows.append(&mut rows)
    }

    /// Keeps only the first `length` rows. Takes no memory, and can't fail.
    pub fn truncate(&mut self, length: usize)
        ensures { self.new ≡ take length self.old }
    {
        self.rows.truncate(length);
    }
}

/// Whether the keys of rows rise, so that no key occurs twice.
fn are_rising<K: Ord, V>(rows: &[(K, V)]) -> bool
    ensures { result ≡ is_sorted K.cmp rows.now }
{
    for place in 1..rows.len() {
        if !rows[place - 1].0.cmp(&rows[place].0).is_lt() {
            return false;
        }
    }
    true
}

/// Whether the keys of rows rise, and all are above a key.
fn are_rising_above<K: Ord, V>(key: &K, rows: &[(K, V)]) -> bool
    ensures { result ≡ (below_all K.cmp key.now rows.now && is_sorted K.cmp rows.now) }
{
    match rows.first() {
        Some(first) => key.cmp(&first.0).is_lt() && are_rising(rows),
        None => true,
    }
}

/// The rows in the order of their keys. Rows of one key stay in the order in which they came.
fn in_order_of_keys<K: Ord + Copy, V: Copy>(rows: Vec<(K, V)>) -> Result<Vec<(K, V)>, AllocError>
    ensures sorted { IfOk result (λ sorted. IsSortedByKey (λ row. row.0) K.cmp sorted.items) }
    ensures stable { IfOk result (λ sorted.
        IsStableByKey (λ row. row.0) K.cmp rows.items sorted.items) }
{
    if are_rising(&rows) {
        return Ok(rows);
    }
    let mut sorted = rows;
    sorted.sort_by_key(|row| row.0)?;
    Ok(sorted)
}

/// The rows of a table after rows are put into it. These are in the order of their keys.
fn merged<K: Ord + Copy, V: Copy>(
    alloc: Global,
    table: &[(K, V)],
    rows: &[(K, V)],
) -> Result<Vec<(K, V)>, AllocError>
    requires rising { IsTable K.cmp table.now }
    requires sorted { IsSortedByKey (λ row. row.0) K.cmp rows.now }
    ensures { IfOk result (λ all. all.items ≡ put_all K.cmp rows.now table.now) }
{
    let mut merged = Vec::with_capacity(alloc, table.len().saturating_add(rows.len()))?;
    let mut rest = table;
    for row in rows {
        rest = put_next(&mut merged, rest, *row)?;
    }
    merged.extend_from_slice(rest)?;
    Ok(merged)
}

/// Takes over the rest of a table up to the key of a row, puts the row at the end, and answers what is
/// left of the rest.
fn put_next<'a, K: Ord + Copy, V: Copy>(
    merged: &mut Vec<(K, V)>,
    rest: &'a [(K, V)],
    row: (K, V),
) -> Result<&'a [(K, V)], AllocError>
    requires rising { IsTable K.cmp (merged.old.items ++ rest.now) }
    requires reached { AreUpTo K.cmp row.0 merged.old.items }
    ensures rows { IfOk result (λ left. merged.new.items ++ left.now
        ≡ put K.cmp row.0 row.1 (merged.old.items ++ rest.entry.now)) }
    ensures reached { OnOk result (AreUpTo K.cmp row.0 merged.new.items) }
{
    let count = count_up_to(rest, &row.0);
    let (low, high) = rest.split_at(count);
    merged.extend_from_slice(low)?;
    put_last(merged, row)?;
    Ok(high)
}

/// How many rows come before the first whose key is above this one.
fn count_up_to<K: Ord + Copy, V: Copy>(rows: &[(K, V)], key: &K) -> usize
    ensures count { result ≡ prefix_len (is_up_to K.cmp key.now) rows.now }
    ensures within { result ≤ length rows.now }
{
    for (count, row) in rows.iter().enumerate() {
        if row.0.cmp(key).is_gt() {
            return count;
        }
    }
    rows.len()
}

/// Puts a row into rows whose keys are not above its own.
fn put_last<K: Ord + Copy, V: Copy>(rows: &mut Vec<(K, V)>, row: (K, V)) -> Result<(), AllocError>
    requires rising { IsTable K.cmp rows.old.items }
    requires reached { AreUpTo K.cmp row.0 rows.old.items }
    ensures { OnOk result (rows.new.items ≡ put K.cmp row.0 row.1 rows.old.items) }
{
    if let Some(last) = rows.pop() {
        if last.0.cmp(&row.0).is_eq() {
            rows.push((last.0, row.1))?;
            return Ok(());
        }
        rows.push(last)?;
    }
    rows.push(row)?;
    Ok(())
}
