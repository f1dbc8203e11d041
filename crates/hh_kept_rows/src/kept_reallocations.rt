//! The reallocations of a unit in a Settlement Period, found among all reallocations.

ghost use Rattle.std.specs.Prelude.{◌≡◌, ◌≤◌, ◌<◌, ◌-◌, length, filter, true, false};
ghost use Rattle.std.specs.List.{AllWithin, HoldsAt};
ghost use Rattle.hh_rows.specs.Keys.{reallocation_key_cmp};
ghost use Rattle.hh_tables.specs.Tables.{IsTable};
ghost use Rattle.hh_kept_rows.specs.steps.KeptReallocations.{is_before, is_no_later, is_of, BeginAt};

use hh_names::Reallocation;
use hh_rows::{ReallocationKey, UnitPeriod};

/// The reallocations of a unit in a Settlement Period, in account order. Looks at the place `near` first.
pub(crate) fn reallocations_of<'r>(
    rows: &'r [(ReallocationKey, Reallocation)],
    key: &UnitPeriod,
    near: usize,
) -> &'r [(ReallocationKey, Reallocation)]
    requires { IsTable reallocation_key_cmp rows.now }
    ensures { result.now ≡ filter (is_of key.now) rows.now }
{
    let first = first_of(rows, key, near);
    let (_, rest) = rows.split_at(first);
    let count = count_of(rest, key);
    let (found, _) = rest.split_at(count);
    found
}

/// The place where the reallocations of a unit in a Settlement Period begin, or would begin. Looks at the
/// place `near` first.
fn first_of(rows: &[(ReallocationKey, Reallocation)], key: &UnitPeriod, near: usize) -> usize
    requires { IsTable reallocation_key_cmp rows.now }
    ensures begins { BeginAt key.now rows.now result }
    ensures within { result ≤ length rows.now }
{
    if begin_at(rows, key, near) {
        return near;
    }
    rows.partition_point(|row| row.0.unit_period.cmp(key).is_lt())
}

/// Whether the reallocations of a unit in a Settlement Period begin at a place, or would begin there: the
/// row before it is of an earlier unit or period, and the row at it isn't.
fn begin_at(rows: &[(ReallocationKey, Reallocation)], key: &UnitPeriod, place: usize) -> bool
    requires { IsTable reallocation_key_cmp rows.now }
    ensures begins { result ≡ true → BeginAt key.now rows.now place }
    ensures within { result ≡ true → place ≤ length rows.now }
{
    if place > rows.len() {
        return false;
    }
    if !is_last_before(rows, key, place) {
        return false;
    }
    !is_before_at(rows, key, place)
}

/// Whether the row before a place is of an earlier unit or period, if there is one.
fn is_last_before(rows: &[(ReallocationKey, Reallocation)], key: &UnitPeriod, place: usize) -> bool
    requires { place ≤ length rows.now }
    ensures { result ≡ true → 0 < place
        → HoldsAt (λ e. is_before key.now e ≡ true) rows.now (place - 1) }
{
    place == 0 || is_before(&rows[place - 1], key)
}

/// Whether there is a row at a place, and it is of an earlier unit or period.
fn is_before_at(rows: &[(ReallocationKey, Reallocation)], key: &UnitPeriod, place: usize) -> bool
    ensures { result ≡ false → place < length rows.now
        → HoldsAt (λ e. is_before key.now e ≡ false) rows.now place }
{
    place < rows.len() && is_before(&rows[place], key)
}

/// Whether a reallocation is of an earlier unit, or of the unit in an earlier Settlement Period.
fn is_before(row: &(ReallocationKey, Reallocation), key: &UnitPeriod) -> bool
    ensures { result ≡ is_before key.now row.now }
{
    row.0.unit_period.cmp(key).is_lt()
}

/// Whether a reallocation is of no later unit, and of the unit in no later Settlement Period.
fn is_no_later(row: &(ReallocationKey, Reallocation), key: &UnitPeriod) -> bool
    ensures { result ≡ is_no_later key.now row.now }
{
    row.0.unit_period.cmp(key).is_le()
}

/// How many of the first reallocations are not of a later unit or Settlement Period.
fn count_of(rows: &[(ReallocationKey, Reallocation)], key: &UnitPeriod) -> usize
    ensures front { AllWithin (λ e. is_no_later key.now e ≡ true) rows.now 0 result }
    ensures behind { result < length rows.now
        → HoldsAt (λ e. is_no_later key.now e ≡ false) rows.now result }
    ensures within { result ≤ length rows.now }
{
    for (count, row) in rows.iter().enumerate() {
        if !is_no_later(row, key) {
            return count;
        }
    }
    rows.len()
}
