//! Energy accounts: each party has two.

ghost use Rattle.std.specs.Prelude.{◌≡◌, Some};
ghost use Rattle.std.specs.Cmp.{partial_order_from_own_ties};
ghost use Rattle.std.specs.Cmp.Rules.{comparing};
ghost use Rattle.std.specs.Ordering.{as_partial_cmp};
ghost use Rattle.std.proofs.Common.{rules};
ghost use Rattle.hh_names.specs.Accounts.{account_cmp, account_text, account_value, is_same_account, side_letter, side_value};

use crate::word::PartyId;
use std::cmp::Ordering;
use std::fmt;

/// Which of a party's two accounts an account is (Section P in shape).
#[derive(Clone, Copy, Debug, PartialEq, Eq, PartialOrd, Ord)]
pub enum Side {
    Production,
    Consumption,
}

/// An energy account. Accounts are ordered by the bytes of the party's id, Production before
/// Consumption (profile).
#[derive(Clone, Copy, Debug)]
pub struct Account {
    pub party: PartyId,
    pub side: Side,
}

impl Side {
    /// The side that `P` or `C` names.
    #[tactic(auto, unfolding(crate::specs::Accounts::side_value))]
    pub fn read(text: &[u8]) -> Option<Side>
        ensures { result ≡ side_value text.now }
    {
        match text {
            b"P" => Some(Side::Production),
            b"C" => Some(Side::Consumption),
            _ => None,
        }
    }

    /// The letter by which the side is written.
    pub fn letter(self) -> u8
        ensures { result ≡ side_letter self }
    {
        match self {
            Side::Production => b'P',
            Side::Consumption => b'C',
        }
    }
}

impl Account {
    /// The account that a party's id, a dash and a side name.
    #[tactic(auto, unfolding(crate::specs::Accounts::account_value))]
    pub fn read(text: &[u8]) -> Option<Account>
        ensures { result ≡ account_value text.now }
    {
        if text.len() < 2 || text[text.len() - 2] != b'-' {
            return None;
        }
        let side = Side::read(&text[text.len() - 1..])?;
        let party = PartyId::read(&text[..text.len() - 2])?;
        Some(Account { party, side })
    }
}

/// The text is the party's id, a dash and `P` or `C`.
impl fmt::Display for Account {
    ghost output = { λ account. Some (account_text account) };

    fn fmt<W: fmt::Write>(&self, f: &mut fmt::Formatter<W>) -> fmt::Result {
        let party = self.party.as_str();
        match self.side {
            Side::Production => write!(f, "{party}-P"),
            Side::Consumption => write!(f, "{party}-C"),
        }
    }
}

impl PartialEq for Account {
    ghost eq = { is_same_account };

    ghost laws = { Prim.search (comparing, rules) };

    fn eq(&self, other: &Account) -> bool {
        self.cmp(other).is_eq()
    }
}

impl Eq for Account {
    ghost laws = { Prim.search (comparing, rules) };
}

impl Ord for Account {
    ghost cmp = { account_cmp };

    ghost total = { Prim.search (comparing, rules) };

    ghost matches_partial_cmp = { Prim.search (comparing, rules) };

    ghost matches_eq = { Prim.search (comparing, rules) };

    fn cmp(&self, other: &Account) -> Ordering {
        match self.party.cmp(&other.party) {
            Ordering::Equal => self.side.cmp(&other.side),
            unequal => unequal,
        }
    }
}

impl PartialOrd for Account {
    ghost partial_cmp = { as_partial_cmp account_cmp };

    ghost laws = { partial_order_from_own_ties (Prim.search (comparing, rules)) (Prim.search (comparing, rules)) };

    fn partial_cmp(&self, other: &Account) -> Option<Ordering> {
        Some(self.cmp(other))
    }
}
