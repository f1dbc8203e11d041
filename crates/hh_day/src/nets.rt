//! The sums of what accounts pay by rows.

ghost use Rattle.std.specs.Prelude.{◌≡◌, ◌+ℤ◌, pos, unwrap_or, IfErr, IfOk, OnOk, SomeIff};
ghost use Rattle.hh_num.specs.Ranges.{IsBetween};
ghost use Rattle.hh_calc.specs.Settled.{paid_by};
ghost use Rattle.hh_runs.specs.DayNets.{day_cash, day_net_of};
ghost use Rattle.hh_day.specs.RunLimits.{AreTurnoversSmall};
ghost use Rattle.hh_day.specs.steps.RunParts.{AddsRow, AreNetsOf};

use hh_calc::AccountRow;
use hh_runs::{DayNet, DayNetTable};
use hh_store::StoreFault;
use std::alloc::Global;

/// What the accounts of these rows pay by them. The rows may be under any keys.
///
/// # Errors
///
/// `Memory` if memory is refused. `Store` if what an account pays, by the rows up to some place, is out of
/// the range of day nets. This doesn't happen if its turnover by the rows is small.
pub(crate) fn nets_of<K>(alloc: Global, rows: &[(K, AccountRow)]) -> Result<DayNetTable, StoreFault>
    ensures nets { IfOk result (AreNetsOf rows.now) }
    ensures memory_alone { AreTurnoversSmall rows.now
        → IfErr result (λ fault. fault ≡ StoreFault.Memory) }
{
    let mut nets = DayNetTable::new(alloc);
    let mut place = 0;
    for row in rows {
        add_row(&mut nets, place, &row.1)?;
        place = place_behind(&nets, place, &row.1);
    }
    Ok(nets)
}

/// The place after that of a row's account, which is likely this one. The net of the next row's account is
/// likely to be there, because each Settlement Period has rows of the same accounts in the same order.
fn place_behind(nets: &DayNetTable, place: usize, row: &AccountRow) -> usize {
    let rows = nets.rows();
    if place < rows.len() && rows[place].0 == row.account {
        return place + 1;
    }
    nets.count_below(&row.account).saturating_add(1)
}

/// Adds what a row moves to the net of its account. Looks for the account at this place first.
fn add_row(nets: &mut DayNetTable, place: usize, row: &AccountRow) -> Result<(), StoreFault>
    ensures added { OnOk result (AddsRow row.now nets.old nets.new) }
    ensures memory_alone { IsBetween day_cash.least day_cash.most
        (day_net_of nets.old row.now.account +ℤ paid_by row.now)
        → IfErr result (λ fault. fault ≡ StoreFault.Memory) }
{
    let Some(net) = net_with(nets.get_near(place, &row.account), row) else {
        return Err(StoreFault::Store);
    };
    nets.put_near(place, row.account, net)?;
    Ok(())
}

/// The net of an account, which is 0 if it has none, with the charge and the share of a row added. `None`
/// exactly if that is out of the range of day nets.
fn net_with(net: Option<DayNet>, row: &AccountRow) -> Option<DayNet>
    ensures { let sum = unwrap_or net (pos 0) +ℤ paid_by row.now in
        SomeIff result (IsBetween day_cash.least day_cash.most sum) sum }
{
    let before = match net {
        Some(net) => net.units(),
        None => 0,
    };
    let paid = row.charge.units().checked_add(row.share.units())?;
    DayNet::new(before.checked_add(paid)?)
}
