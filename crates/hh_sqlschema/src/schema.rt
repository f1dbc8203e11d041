//! The schema of an office's database, distinguished from every other schema.

ghost use Rattle.std.specs.Prelude.{◌≡◌, ◌≢◌, ◌≤◌, ◌++◌, [], ◌∷◌, ℕ, List, codes, false, map, take, IsTrue, MatchOption, None};
ghost use Rattle.hh_sqlrows.specs.OfficeSchema.{key_index, keyed, nothing, office, office_of_one, office_tables, present, schema_with};

use crate::office_tables::is_office_table;
use sqlite_items::Items;
use sqlite_schema::code::Terms;
use sqlite_schema::schema::{Column, Index, Kind, Schema, Stamps, Table};
use sqlite_value::keys::{Collation, Order};
use sqlite_value::value::Value;

/// How many tables an office has.
const TABLES: usize = 17;

/// How many of them version 1 had.
const TABLES_OF_ONE: usize = 16;

fn is_null(value: &Value) -> bool
    ensures only { IsTrue result → value.now ≡ Value.Null }
    ensures known { value.now ≡ Value.Null → IsTrue result }
{
    matches!(value, Value::Null)
}

fn is_column(column: &Column, name: &[u8], kind: Kind) -> bool
    ensures only { IsTrue result → column.now ≡ present name.now kind }
    ensures known { column.now ≡ present name.now kind → IsTrue result }
{
    if column.name.as_slice() != name
        || column.kind != kind
        || column.collation != Collation::Binary
    {
        return false;
    }
    column.is_strict && column.not_null && is_null(&column.default)
}

/// Whether the columns have these names and kinds, and there are no others.
fn are_columns(columns: &[Column], named: &[(&[u8], Kind)]) -> bool
    ensures only { IsTrue result → columns.now ≡ map (λ c. present c.0.now c.1) named.now }
    ensures known { columns.now ≡ map (λ c. present c.0.now c.1) named.now → IsTrue result }
{
    if columns.len() != named.len() {
        return false;
    }
    'columns: for at in 0..named.len() {
        if !is_column(&columns[at], named[at].0, named[at].1) {
            return false;
        }
    }
    true
}

fn are(places: &[usize], wanted: &[usize]) -> bool
    ensures only { IsTrue result → places.now ≡ wanted.now }
    ensures known { places.now ≡ wanted.now → IsTrue result }
{
    places == wanted
}

fn has_only_key(keys: &[Items<usize>], places: &[usize]) -> bool
    ensures only { IsTrue result → keys.now ≡ places.now ∷ [] }
    ensures known { keys.now ≡ places.now ∷ [] → IsTrue result }
{
    let [key] = keys else {
        return false;
    };
    are(key.as_slice(), places)
}

fn has_plain_order(orders: &[Order]) -> bool
    ensures only { IsTrue result → orders.now ≡ record { digits = 0 } ∷ [] }
    ensures known { orders.now ≡ record { digits = 0 } ∷ [] → IsTrue result }
{
    let [order] = orders else {
        return false;
    };
    order.digits == 0
}

fn is_none(terms: &Terms) -> bool
    ensures only { IsTrue result → terms.now ≡ [] }
    ensures known { terms.now ≡ [] → IsTrue result }
{
    terms.roots.is_empty()
}

fn is_unstamped(stamps: &Stamps) -> bool
    ensures only { IsTrue result → stamps.now ≡ record { places = []; terms = []; formats = [] } }
    ensures known { stamps.now ≡ record { places = []; terms = []; formats = [] } → IsTrue result }
{
    stamps.places.is_empty() && is_none(&stamps.terms) && stamps.formats.is_empty()
}

/// Whether the columns at these places are the only key of a table, with a plain index.
fn has_key(table: &Table, places: &[usize]) -> bool
    ensures primary { IsTrue result → table.now.primary ≡ places.now }
    ensures uniques { IsTrue result → table.now.uniques ≡ places.now ∷ [] }
    ensures orders { IsTrue result → table.now.orders ≡ record { digits = 0 } ∷ [] }
    ensures known { table.now.primary ≡ places.now → table.now.uniques ≡ places.now ∷ []
        → table.now.orders ≡ record { digits = 0 } ∷ [] → IsTrue result }
{
    are(table.primary.as_slice(), places)
        && has_only_key(table.uniques.as_slice(), places)
        && has_plain_order(table.orders.as_slice())
}

/// Whether a table has no rules other than its key and those of its columns.
fn is_plain(table: &Table) -> bool
    ensures key { IsTrue result → table.now.key ≡ None }
    ensures checks { IsTrue result → table.now.checks ≡ [] }
    ensures references { IsTrue result → table.now.references ≡ [] }
    ensures computed { IsTrue result → table.now.computed ≡ [] }
    ensures stamps { IsTrue result
        → table.now.stamps ≡ record { places = []; terms = []; formats = [] } }
    ensures is_counted { IsTrue result → table.now.is_counted ≡ false }
    ensures known { table.now.key ≡ None → table.now.checks ≡ [] → table.now.references ≡ []
        → table.now.computed ≡ []
        → table.now.stamps ≡ record { places = []; terms = []; formats = [] }
        → table.now.is_counted ≡ false → IsTrue result }
{
    table.key.is_none()
        && is_none(&table.checks)
        && table.references.is_empty()
        && table.computed.is_empty()
        && is_unstamped(&table.stamps)
        && !table.is_counted
}

/// Whether a table has this name, tree, columns and key, and no other rules.
pub(crate) fn is_keyed(
    table: &Table,
    name: &[u8],
    tree: u32,
    named: &[(&[u8], Kind)],
    places: &[usize],
) -> bool
    ensures only { IsTrue result
        → table.now ≡ keyed name.now tree (map (λ c. present c.0.now c.1) named.now) places.now }
    ensures known { let columns = map (λ c. present c.0.now c.1) named.now in
        table.now ≡ keyed name.now tree columns places.now → IsTrue result }
{
    if !has_key(table, places) {
        return false;
    }
    if !is_plain(table) {
        return false;
    }
    if table.name.as_slice() != name || table.tree != tree {
        return false;
    }
    are_columns(table.columns.as_slice(), named)
}

/// Whether the tables are the first ones of an office, in their order.
fn are_tables(tables: &[Table], count: usize) -> bool
    requires { count ≤ 17 }
    ensures only { IsTrue result → tables.now ≡ take count office_tables }
    ensures known { tables.now ≡ take count office_tables → IsTrue result }
{
    if tables.len() != count {
        return false;
    }
    'tables: for at in 0..count {
        if !is_office_table(&tables[at], at) {
            return false;
        }
    }
    true
}

/// The rest of a name after `front`, if it begins with that.
fn after<'a>(name: &'a [u8], front: &[u8]) -> Option<&'a [u8]>
    ensures { MatchOption result ((rest : List ℕ) → name.now ≢ front.now ++ rest)
        (λ rest. name.now ≡ front.now ++ rest.now) }
{
    name.strip_prefix(front)
}

/// Whether a name is that of the index on the key of a table with this name.
fn names_key_index(name: &[u8], table: &[u8]) -> bool
    ensures only { IsTrue result
        → name.now ≡ codes "sqlite_autoindex_" ++ table.now ++ codes "_1" }
    ensures known { name.now ≡ codes "sqlite_autoindex_" ++ table.now ++ codes "_1"
        → IsTrue result }
{
    let Some(rest) = after(name, b"sqlite_autoindex_") else {
        return false;
    };
    let Some(end) = after(rest, table) else {
        return false;
    };
    end == b"_1".as_slice()
}

/// Whether an index is the one for the key of a table.
fn is_key_index(index: &Index, table: &Table) -> bool
    ensures only { IsTrue result → index.now ≡ key_index table.now }
    ensures known { index.now ≡ key_index table.now → IsTrue result }
{
    if !names_key_index(index.name.as_slice(), table.name.as_slice()) {
        return false;
    }
    if index.tree == 0 || index.tree - 1 != table.tree || index.table != table.tree {
        return false;
    }
    are(index.columns.as_slice(), table.primary.as_slice())
        && index.order.digits == 0
        && index.is_unique
}

/// Whether the indexes are those for the keys of the tables, in their order.
fn are_key_indexes(indexes: &[Index], tables: &[Table]) -> bool
    ensures only { IsTrue result → indexes.now ≡ map key_index tables.now }
    ensures known { indexes.now ≡ map key_index tables.now → IsTrue result }
{
    if indexes.len() != tables.len() {
        return false;
    }
    'indexes: for at in 0..tables.len() {
        if !is_key_index(&indexes[at], &tables[at]) {
            return false;
        }
    }
    true
}

/// Whether a schema has the first tables of an office and their key indexes, and no others.
fn has_first(schema: &Schema, count: usize) -> bool
    requires { count ≤ 17 }
    ensures only { IsTrue result → schema.now ≡ schema_with (take count office_tables) }
    ensures known { schema.now ≡ schema_with (take count office_tables) → IsTrue result }
{
    are_tables(schema.tables.as_slice(), count)
        && are_key_indexes(schema.indexes.as_slice(), schema.tables.as_slice())
        && schema.views.is_empty()
}

/// Whether a schema is an office's.
pub(crate) fn is_office(schema: &Schema) -> bool
    ensures only { IsTrue result → schema.now ≡ office }
    ensures known { schema.now ≡ office → IsTrue result }
{
    has_first(schema, TABLES)
}

/// Whether a schema is that of version 1.
pub(crate) fn is_office_of_one(schema: &Schema) -> bool
    ensures only { IsTrue result → schema.now ≡ office_of_one }
    ensures known { schema.now ≡ office_of_one → IsTrue result }
{
    has_first(schema, TABLES_OF_ONE)
}

/// Whether a schema is empty.
pub(crate) fn is_nothing(schema: &Schema) -> bool
    ensures only { IsTrue result → schema.now ≡ nothing }
    ensures known { schema.now ≡ nothing → IsTrue result }
{
    schema.tables.is_empty() && schema.indexes.is_empty() && schema.views.is_empty()
}
