//! The credits from units: to their subsidiaries, and the rest to their lead accounts.

ghost use Rattle.std.specs.Prelude.{◌≡◌, ◌≤◌, ◌^◌, ◌++◌, unsigned_abs, All, OnOk, IsPermutation, IsSorted};
ghost use Rattle.hh_calc.specs.Formulas.{loss_adjusted, subsidiary_credit, unit_credits};
ghost use Rattle.hh_calc.specs.Ready.{HasFewSubsidiaries};
ghost use Rattle.hh_calc.specs.Settled.{credit_cmp};
ghost use Rattle.hh_calc.specs.steps.Sums.{greatest_volume, IsCreditSmall};

use crate::data::{Subsidiary, UnitData};
use crate::result::CreditRow;
use hh_share::{Ticks, round_div};
use std::alloc::AllocError;

/// 100 percent, in the units of a percentage.
const HUNDRED_PERCENT: i128 = 10_000_000;

/// The loss-adjusted volume of a unit, in ticks (Section T).
fn loss_adjusted_volume(unit: &UnitData) -> i128
    ensures volume { result ≡ loss_adjusted unit.now }
    ensures size { unsigned_abs result ≤ greatest_volume }
{
    let reading = unit.reading();
    i128::from(reading.metered.units()) * i128::from(reading.tlm.units())
}

/// The energy that a subsidiary is credited with from a unit, in ticks (Section T).
fn credit_to(unit: &UnitData, subsidiary: &Subsidiary) -> i128
    ensures credit { result ≡ subsidiary_credit unit.now subsidiary.now }
    ensures size { unsigned_abs result ≤ 10 ^ 15 }
{
    let reading = unit.reading();
    let volume = i128::from(reading.metered.units()) - i128::from(reading.balancing.units());
    let part = volume * i128::from(subsidiary.reallocation.percent.units())
        + i128::from(subsidiary.reallocation.fixed.units()) * HUNDRED_PERCENT;
    round_div(part * i128::from(reading.tlm.units()), HUNDRED_PERCENT)
}

/// Appends the credits from a unit: to each subsidiary, and the exact rest to the lead account.
pub(crate) fn push_credits(credits: &mut Vec<CreditRow>, unit: &UnitData) -> Result<(), AllocError>
    requires few { HasFewSubsidiaries unit.now }
    ensures credits { OnOk result (credits.new.items ≡ credits.old.items ++ unit_credits unit.now) }
    ensures small { OnOk result (All IsCreditSmall (unit_credits unit.now)) }
{
    let mut rest = loss_adjusted_volume(unit);
    for subsidiary in unit.subsidiaries() {
        let credited = credit_to(unit, subsidiary);
        rest -= credited;
        credits.push(CreditRow {
            unit: unit.unit(),
            account: subsidiary.account,
            credited: Ticks::of(credited as i64),
        })?;
    }
    credits.push(CreditRow {
        unit: unit.unit(),
        account: unit.lead(),
        credited: Ticks::of(rest as i64),
    })?;
    Ok(())
}

/// Moves the last of these credits to its place in account order, if the others are in that order.
pub(crate) fn put_last_in_place(credits: &mut [CreditRow])
    ensures { IsPermutation credits.old credits.new }
{
    let Some((last, others)) = credits.split_last() else {
        return;
    };
    let place = others.partition_point(|credit| credit.account.cmp(&last.account).is_lt());
    credits[place..].rotate_right(1);
}

/// The credits in the order of their units' bytes, then of their accounts.
pub(crate) fn sorted_credits(mut credits: Vec<CreditRow>) -> Vec<CreditRow>
    ensures same { IsPermutation credits.items result.items }
    ensures ordered { IsSorted credit_cmp result.items }
{
    sort_credits(&mut credits);
    credits
}

/// Sorts credits by their units' bytes, then by their accounts. Credits that are in order already are
/// gone through only once.
fn sort_credits(credits: &mut [CreditRow])
    ensures same { IsPermutation credits.old credits.new }
    ensures ordered { IsSorted credit_cmp credits.new }
{
    credits.sort_unstable_by(|left, right| {
        left.unit
            .cmp(&right.unit)
            .then(left.account.cmp(&right.account))
    });
}
