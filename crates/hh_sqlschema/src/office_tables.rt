//! The tables of an office's schema, each distinguished from every other table.

ghost use Rattle.std.specs.Prelude.{◌≡◌, ◌<◌, IsTrue, Some, slice_get};
ghost use Rattle.hh_sqlrows.specs.OfficeSchema.{contracts_table, credits_table, files_table, leads_table, marks_table, meters_table, office_tables, parties_table, positions_table, postings_table, prices_table, reallocations_table, refs_table, results_table, runs_table, settings_table, touched_table, units_table};

use crate::schema::is_keyed;
use sqlite_schema::schema::{Kind, Table};

fn is_settings(table: &Table) -> bool
    ensures only { IsTrue result → table.now ≡ settings_table }
    ensures known { table.now ≡ settings_table → IsTrue result }
{
    let columns = [
        (b"id".as_slice(), Kind::Integer),
        (b"version".as_slice(), Kind::Integer),
        (b"lead_minutes".as_slice(), Kind::Integer),
        (b"operator_key".as_slice(), Kind::Text),
    ];
    is_keyed(table, b"settings", 0, &columns, &[1])
}

fn is_parties(table: &Table) -> bool
    ensures only { IsTrue result → table.now ≡ parties_table }
    ensures known { table.now ≡ parties_table → IsTrue result }
{
    let columns = [
        (b"party".as_slice(), Kind::Text),
        (b"day_from".as_slice(), Kind::Integer),
        (b"day_to".as_slice(), Kind::Integer),
        (b"access_key".as_slice(), Kind::Text),
    ];
    is_keyed(table, b"parties", 2, &columns, &[1])
}

fn is_units(table: &Table) -> bool
    ensures only { IsTrue result → table.now ≡ units_table }
    ensures known { table.now ≡ units_table → IsTrue result }
{
    let columns = [
        (b"unit".as_slice(), Kind::Text),
        (b"party".as_slice(), Kind::Text),
        (b"side".as_slice(), Kind::Integer),
        (b"interconnector".as_slice(), Kind::Integer),
        (b"day_from".as_slice(), Kind::Integer),
        (b"day_to".as_slice(), Kind::Integer),
    ];
    is_keyed(table, b"units", 4, &columns, &[1])
}

fn is_meters(table: &Table) -> bool
    ensures only { IsTrue result → table.now ≡ meters_table }
    ensures known { table.now ≡ meters_table → IsTrue result }
{
    let columns = [
        (b"unit".as_slice(), Kind::Text),
        (b"day".as_slice(), Kind::Integer),
        (b"period".as_slice(), Kind::Integer),
        (b"metered".as_slice(), Kind::Integer),
        (b"tlm".as_slice(), Kind::Integer),
        (b"balancing".as_slice(), Kind::Integer),
    ];
    is_keyed(table, b"meters", 6, &columns, &[1, 2, 3])
}

fn is_prices(table: &Table) -> bool
    ensures only { IsTrue result → table.now ≡ prices_table }
    ensures known { table.now ≡ prices_table → IsTrue result }
{
    let columns = [
        (b"day".as_slice(), Kind::Integer),
        (b"period".as_slice(), Kind::Integer),
        (b"price".as_slice(), Kind::Integer),
    ];
    is_keyed(table, b"prices", 8, &columns, &[1, 2])
}

fn is_refs(table: &Table) -> bool
    ensures only { IsTrue result → table.now ≡ refs_table }
    ensures known { table.now ≡ refs_table → IsTrue result }
{
    let columns = [
        (b"reference".as_slice(), Kind::Text),
        (b"seller".as_slice(), Kind::Text),
        (b"seller_side".as_slice(), Kind::Integer),
        (b"buyer".as_slice(), Kind::Text),
        (b"buyer_side".as_slice(), Kind::Integer),
    ];
    is_keyed(table, b"refs", 10, &columns, &[1])
}

fn is_contracts(table: &Table) -> bool
    ensures only { IsTrue result → table.now ≡ contracts_table }
    ensures known { table.now ≡ contracts_table → IsTrue result }
{
    let columns = [
        (b"reference".as_slice(), Kind::Text),
        (b"day".as_slice(), Kind::Integer),
        (b"period".as_slice(), Kind::Integer),
        (b"kwh".as_slice(), Kind::Integer),
    ];
    is_keyed(table, b"contracts", 12, &columns, &[1, 2, 3])
}

fn is_reallocations(table: &Table) -> bool
    ensures only { IsTrue result → table.now ≡ reallocations_table }
    ensures known { table.now ≡ reallocations_table → IsTrue result }
{
    let columns = [
        (b"unit".as_slice(), Kind::Text),
        (b"party".as_slice(), Kind::Text),
        (b"side".as_slice(), Kind::Integer),
        (b"day".as_slice(), Kind::Integer),
        (b"period".as_slice(), Kind::Integer),
        (b"percent".as_slice(), Kind::Integer),
        (b"fixed".as_slice(), Kind::Integer),
    ];
    is_keyed(table, b"reallocations", 14, &columns, &[1, 2, 3, 4, 5])
}

fn is_files(table: &Table) -> bool
    ensures only { IsTrue result → table.now ≡ files_table }
    ensures known { table.now ≡ files_table → IsTrue result }
{
    let columns = [
        (b"kind".as_slice(), Kind::Text),
        (b"name".as_slice(), Kind::Text),
        (b"body".as_slice(), Kind::Blob),
        (b"applied".as_slice(), Kind::Integer),
        (b"late".as_slice(), Kind::Integer),
    ];
    is_keyed(table, b"files", 16, &columns, &[1, 2])
}

fn is_runs(table: &Table) -> bool
    ensures only { IsTrue result → table.now ≡ runs_table }
    ensures known { table.now ≡ runs_table → IsTrue result }
{
    let columns = [
        (b"day".as_slice(), Kind::Integer),
        (b"kind".as_slice(), Kind::Integer),
        (b"periods".as_slice(), Kind::Integer),
        (b"accounts".as_slice(), Kind::Integer),
        (b"residual".as_slice(), Kind::Integer),
        (b"postings".as_slice(), Kind::Integer),
    ];
    is_keyed(table, b"runs", 18, &columns, &[1, 2])
}

fn is_results(table: &Table) -> bool
    ensures only { IsTrue result → table.now ≡ results_table }
    ensures known { table.now ≡ results_table → IsTrue result }
{
    let columns = [
        (b"day".as_slice(), Kind::Integer),
        (b"kind".as_slice(), Kind::Integer),
        (b"period".as_slice(), Kind::Integer),
        (b"party".as_slice(), Kind::Text),
        (b"side".as_slice(), Kind::Integer),
        (b"credited".as_slice(), Kind::Integer),
        (b"balancing".as_slice(), Kind::Integer),
        (b"contracts".as_slice(), Kind::Integer),
        (b"imbalance".as_slice(), Kind::Integer),
        (b"charge".as_slice(), Kind::Integer),
        (b"share".as_slice(), Kind::Integer),
    ];
    is_keyed(table, b"results", 20, &columns, &[1, 2, 3, 4, 5])
}

fn is_credits(table: &Table) -> bool
    ensures only { IsTrue result → table.now ≡ credits_table }
    ensures known { table.now ≡ credits_table → IsTrue result }
{
    let columns = [
        (b"day".as_slice(), Kind::Integer),
        (b"kind".as_slice(), Kind::Integer),
        (b"period".as_slice(), Kind::Integer),
        (b"unit".as_slice(), Kind::Text),
        (b"party".as_slice(), Kind::Text),
        (b"side".as_slice(), Kind::Integer),
        (b"credited".as_slice(), Kind::Integer),
    ];
    is_keyed(table, b"credits", 22, &columns, &[1, 2, 3, 4, 5, 6])
}

fn is_postings(table: &Table) -> bool
    ensures only { IsTrue result → table.now ≡ postings_table }
    ensures known { table.now ≡ postings_table → IsTrue result }
{
    let columns = [
        (b"day".as_slice(), Kind::Integer),
        (b"kind".as_slice(), Kind::Integer),
        (b"party".as_slice(), Kind::Text),
        (b"side".as_slice(), Kind::Integer),
        (b"pence".as_slice(), Kind::Integer),
    ];
    is_keyed(table, b"postings", 24, &columns, &[1, 2, 3, 4])
}

fn is_positions(table: &Table) -> bool
    ensures only { IsTrue result → table.now ≡ positions_table }
    ensures known { table.now ≡ positions_table → IsTrue result }
{
    let columns = [
        (b"day".as_slice(), Kind::Integer),
        (b"period".as_slice(), Kind::Integer),
        (b"party".as_slice(), Kind::Text),
        (b"side".as_slice(), Kind::Integer),
        (b"kwh".as_slice(), Kind::Integer),
        (b"lost".as_slice(), Kind::Integer),
    ];
    is_keyed(table, b"positions", 26, &columns, &[1, 2, 3, 4])
}

fn is_touched(table: &Table) -> bool
    ensures only { IsTrue result → table.now ≡ touched_table }
    ensures known { table.now ≡ touched_table → IsTrue result }
{
    let columns = [
        (b"day".as_slice(), Kind::Integer),
        (b"period".as_slice(), Kind::Integer),
    ];
    is_keyed(table, b"touched", 28, &columns, &[1, 2])
}

fn is_marks(table: &Table) -> bool
    ensures only { IsTrue result → table.now ≡ marks_table }
    ensures known { table.now ≡ marks_table → IsTrue result }
{
    let columns = [
        (b"id".as_slice(), Kind::Integer),
        (b"positions".as_slice(), Kind::Integer),
    ];
    is_keyed(table, b"marks", 30, &columns, &[1])
}

fn is_leads(table: &Table) -> bool
    ensures only { IsTrue result → table.now ≡ leads_table }
    ensures known { table.now ≡ leads_table → IsTrue result }
{
    let columns = [
        (b"unit".as_slice(), Kind::Text),
        (b"day_from".as_slice(), Kind::Integer),
        (b"party".as_slice(), Kind::Text),
        (b"side".as_slice(), Kind::Integer),
        (b"day_to".as_slice(), Kind::Integer),
    ];
    is_keyed(table, b"leads", 32, &columns, &[1, 2])
}

/// Whether a table is the office's table with this number.
pub(crate) fn is_office_table(table: &Table, at: usize) -> bool
    requires { at < 17 }
    ensures only { IsTrue result → slice_get office_tables at ≡ Some table.now }
    ensures known { slice_get office_tables at ≡ Some table.now → IsTrue result }
{
    match at {
        0 => is_settings(table),
        1 => is_parties(table),
        2 => is_units(table),
        3 => is_meters(table),
        4 => is_prices(table),
        5 => is_refs(table),
        6 => is_contracts(table),
        7 => is_reallocations(table),
        8 => is_files(table),
        9 => is_runs(table),
        10 => is_results(table),
        11 => is_credits(table),
        12 => is_postings(table),
        13 => is_positions(table),
        14 => is_touched(table),
        15 => is_marks(table),
        _ => is_leads(table),
    }
}
