//! The contract positions of accounts: what each sells less what it buys in a Settlement Period.

ghost use Rattle.std.specs.Prelude.{◌≡◌, pos, neg_ℤ, [], option_copied, IfOk, IfSome, OnOk, OnErr};
ghost use Rattle.std.specs.FinMap.{put};
ghost use Rattle.hh_rows.specs.Ranges.{IsBetween};
ghost use Rattle.hh_rules.specs.Positions.{position_in, position_key, position_key_cmp, position_plus, volume_of, with_replaced, TakesPlaceOf};
ghost use Rattle.hh_rules.specs.steps.Positions.{IsMove};

use hh_names::Account;
use hh_rows::{ContractRow, NetKwh, SettlementPeriod};
use hh_tables::TreeTable;
use std::alloc::{AllocError, Global};
use std::marker::Model;

/// The key of a position: an account in a Settlement Period. Ordered by Settlement Period, then by
/// account.
#[derive(Clone, Copy, Debug, PartialEq, Eq, PartialOrd, Ord)]
pub struct PositionKey {
    pub at: SettlementPeriod,
    pub account: Account,
}

/// What an account sells less what it buys by the contracts in force in a Settlement Period (Section P in
/// shape), if that is known.
#[derive(Clone, Copy, Debug, PartialEq, Eq)]
pub enum Position {
    /// The net volume in kWh.
    Known(NetKwh),
    /// The net volume passed 100,000,000 MWh in size at some time. It is not kept since then.
    Lost,
}

impl Position {
    /// The position after a volume in kWh is added to it. It is lost if the sum passes 100,000,000 MWh in
    /// size, or if it was lost before.
    fn plus(self, volume: i64) -> Position
        requires { IsMove volume }
        ensures { result ≡ position_plus volume self }
    {
        match self {
            Position::Known(net) => match NetKwh::new(net.units() + volume) {
                Some(net) => Position::Known(net),
                None => Position::Lost,
            },
            Position::Lost => Position::Lost,
        }
    }
}

/// The positions of accounts, by Settlement Period and account. Contracts see the table of those that
/// were ever moved or held.
#[derive(Drop)]
pub struct Positions {
    positions: TreeTable<PositionKey, Position>,
}

impl Model for Positions {
    ghost use Rattle.hh_tables.specs.Tables.{Table};
    ghost use Rattle.hh_rules.specs.declared.positions.Position.{Position};
    ghost use Rattle.hh_rules.specs.declared.positions.PositionKey.{PositionKey};

    ghost Value = { Table PositionKey Position };

    ghost view = { λ p. p.positions };
}

impl Positions {
    /// The positions when no account has sold or bought. Takes no memory.
    pub fn new(alloc: Global) -> Positions
        ensures { result ≡ [] }
    {
        Positions {
            positions: TreeTable::new(alloc),
        }
    }

    /// What an account sells less what it buys in a Settlement Period, 0 kWh if it has no position
    /// (Section P in shape).
    pub fn of(&self, key: &PositionKey) -> Position
        ensures { result ≡ position_in self.now key.now }
    {
        match self.positions.get(key) {
            Some(position) => position,
            None => Position::Known(NetKwh::of(0)),
        }
    }

    /// Holds a position that was kept, replacing that of its key. `Err` only if memory is refused: the
    /// positions are then as they were.
    pub fn hold(&mut self, key: PositionKey, position: Position) -> Result<(), AllocError>
        ensures ok { OnOk result (self.new ≡ put position_key_cmp key position self.old) }
        ensures err { OnErr result (self.new ≡ self.old) }
    {
        self.positions.put(key, position)
    }

    /// Replaces a contract row by another of its key, or takes the first row of a key. The seller's
    /// position gains the new volume and loses the old one. The buyer's changes the other way round
    /// (Section P in shape). `Err` only if memory is refused: the positions are then as they were.
    pub fn replace(
        &mut self,
        old: Option<&ContractRow>,
        new: &ContractRow,
    ) -> Result<(), AllocError>
        requires { IfSome (option_copied old) (TakesPlaceOf new.now) }
        ensures ok { OnOk result
            (self.new ≡ with_replaced (option_copied old.entry) new.now self.old) }
        ensures err { OnErr result (self.new ≡ self.old) }
    {
        let more = new.contract.volume.units() - volume_of(old);
        let counterparties = new.contract.counterparties;
        let seller = key_of(new, counterparties.seller);
        let buyer = key_of(new, counterparties.buyer);
        let sold = (seller, self.of(&seller).plus(more));
        let bought = (buyer, self.of_beside(&sold, &buyer).plus(-more));
        self.positions.put_two(sold, bought)
    }

    /// The position of a key, after this other position is put under its own key.
    fn of_beside(&self, other: &(PositionKey, Position), key: &PositionKey) -> Position
        ensures { let after = put position_key_cmp other.now.0 other.now.1 self.now in
            result ≡ position_in after key.now }
    {
        if *key == other.0 {
            other.1
        } else {
            self.of(key)
        }
    }

    /// The positions that were ever moved or held, with their keys, in the order of the keys. `Err` only
    /// if memory is refused.
    pub fn rows(&self, alloc: Global) -> Result<Vec<(PositionKey, Position)>, AllocError>
        ensures { IfOk result (λ rows. rows.items ≡ self.now) }
    {
        self.positions.rows(alloc)
    }
}

/// The volume of a contract row in kWh, 0 if there is no row.
fn volume_of(row: Option<&ContractRow>) -> i64
    ensures value { result ≡ volume_of (option_copied row.entry) }
    ensures range { IsBetween (neg_ℤ (pos 10_000_000)) (pos 10_000_000) result }
{
    match row {
        Some(row) => row.contract.volume.units(),
        None => 0,
    }
}

/// The key of the position of an account that a contract row names.
fn key_of(row: &ContractRow, account: Account) -> PositionKey
    ensures { result ≡ position_key row.now account }
{
    PositionKey {
        at: row.key.at,
        account,
    }
}
