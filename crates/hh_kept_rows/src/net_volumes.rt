//! The net volumes of a Settlement Period, by the positions that are kept.

ghost use Rattle.std.specs.Prelude.{◌≡◌, true, false, All, None, Ok, IfOk, IfSome};
ghost use Rattle.hh_calc.specs.Ready.{IsNetVolume};
ghost use Rattle.hh_rules.specs.Positions.{position_in};
ghost use Rattle.hh_rules.specs.declared.positions.Position.TheVariants.{Known, Lost};
ghost use Rattle.hh_beside.specs.PositionLaws.{are_known, position_key_at, net_volumes_at};

use hh_names::Account;
use hh_num::NetKwh;
use hh_rows::SettlementPeriod;
use hh_rules::{Position, PositionKey};
use hh_tables::ListTable;
use std::alloc::{AllocError, Global};

/// What each of these accounts sells less what it buys in a Settlement Period, by the positions. `None`
/// if a position of theirs is lost.
pub(crate) fn nets_at(
    alloc: Global,
    positions: &ListTable<PositionKey, Position>,
    accounts: &[Account],
    at: &SettlementPeriod,
) -> Result<Option<Vec<NetKwh>>, AllocError>
    ensures volumes { IfOk result (λ o. IfSome o (λ nets.
        nets.items ≡ net_volumes_at positions.now at.now accounts.now)) }
    ensures known { IfOk result (λ o. IfSome o (λ nets.
        are_known positions.now at.now accounts.now ≡ true)) }
    ensures sizes { IfOk result (λ o. IfSome o (λ nets. All IsNetVolume nets.items)) }
    ensures lost { result ≡ Ok None → are_known positions.now at.now accounts.now ≡ false }
{
    let mut nets = Vec::with_capacity(alloc, accounts.len())?;
    for account in accounts {
        let Some(net) = net_of(position_at(positions, account, at)) else {
            return Ok(None);
        };
        nets.push(net)?;
    }
    Ok(Some(nets))
}

/// The position of an account in a Settlement Period.
fn position_at(
    positions: &ListTable<PositionKey, Position>,
    account: &Account,
    at: &SettlementPeriod,
) -> Position
    ensures { result ≡ position_in positions.now (position_key_at at.now account.now) }
{
    let key = PositionKey {
        at: *at,
        account: *account,
    };
    match positions.get(&key) {
        Some(position) => position,
        None => Position::Known(NetKwh::of(0)),
    }
}

/// The net volume of a position, or `None` if the position is lost.
fn net_of(position: Position) -> Option<NetKwh>
    ensures known { IfSome result (λ net. position ≡ Known net) }
    ensures size { IfSome result IsNetVolume }
    ensures lost { result ≡ None → position ≡ Lost }
{
    match position {
        Position::Known(net) => Some(net),
        Position::Lost => None,
    }
}
