//! Who may ask for what.

ghost use Rattle.std.specs.Prelude.{◌≡◌, ◌||◌, IfOk, OnOk};
ghost use Rattle.hh_store.specs.Crashes.{AddsNothing};
ghost use Rattle.hh_store.specs.Reached.{AreReached};
ghost use Rattle.hh_store.specs.StoreFaults.{CountsRefusal};
ghost use Rattle.hh_office.specs.Machine.{is_holder, is_operator, is_party_key, may};
ghost use Rattle.hh_office.specs.steps.Promises.{TellsTruly};
ghost use Rattle.hh_office.specs.Views.{IsSure};

use crate::office::Office;
use hh_names::Account;
use hh_requests::{Action, Request};
use hh_store::{StoreFault, Tables};

impl<'z, T: Tables> Office<'z, T> {
    /// Whether the key of a request allows what it asks.
    pub(crate) fn may(&mut self, request: &Request) -> Result<bool, StoreFault>
        ensures allowed { IsSure T.is_open self.new
            → IfOk result (λ allowed. TellsTruly self.old.seen allowed
            (λ midnight s. may midnight s request.now.key request.now.action)) }
        ensures same { IsSure T.is_open self.new → self.new.seen ≡ self.old.seen }
        ensures crash { AddsNothing T.is_honest T.is_open T.may_leave
            self.old.tables self.new.tables (OnOk result) }
        ensures refusals_counted { IsSure T.is_open self.new → AreReached self.old.seen.content
            → CountsRefusal result (T.refusals self.old.tables) (T.refusals self.new.tables) }
        ensures sure { IsSure T.is_open self.new → IsSure T.is_open self.old }
    {
        let key = request.key.as_slice();
        match &request.action {
            Action::Load(_) | Action::Run(_) => self.is_operator(key),
            Action::Account { account, .. }
            | Action::Balance { account }
            | Action::Contracts { account, .. } => self.may_see(account, key),
            Action::Runs { .. } => Ok(self.is_operator(key)? || self.is_party_key(key)?),
        }
    }

    /// Whether a key is the operator's, or that of the party of an account.
    fn may_see(&mut self, account: &Account, key: &[u8]) -> Result<bool, StoreFault>
        ensures told { IsSure T.is_open self.new
            → IfOk result (λ told. TellsTruly self.old.seen told
            (λ midnight s. is_operator midnight s key.now || is_holder midnight s account.now key.now)) }
        ensures same { IsSure T.is_open self.new → self.new.seen ≡ self.old.seen }
        ensures crash { AddsNothing T.is_honest T.is_open T.may_leave
            self.old.tables self.new.tables (OnOk result) }
        ensures refusals_counted { IsSure T.is_open self.new → AreReached self.old.seen.content
            → CountsRefusal result (T.refusals self.old.tables) (T.refusals self.new.tables) }
        ensures sure { IsSure T.is_open self.new → IsSure T.is_open self.old }
    {
        Ok(self.is_operator(key)? || self.is_holder(account, key)?)
    }

    /// Whether a key is that of a registered party.
    fn is_party_key(&mut self, key: &[u8]) -> Result<bool, StoreFault>
        ensures told { IsSure T.is_open self.new
            → IfOk result (λ told. TellsTruly self.old.seen told
            (λ midnight s. is_party_key midnight s key.now)) }
        ensures same { IsSure T.is_open self.new → self.new.seen ≡ self.old.seen }
        ensures crash { AddsNothing T.is_honest T.is_open T.may_leave
            self.old.tables self.new.tables (OnOk result) }
        ensures refusals_counted { IsSure T.is_open self.new → AreReached self.old.seen.content
            → CountsRefusal result (T.refusals self.old.tables) (T.refusals self.new.tables) }
        ensures sure { IsSure T.is_open self.new → IsSure T.is_open self.old }
    {
        self.tables.key_known(key)
    }

    /// Whether a key is the operator's.
    pub(crate) fn is_operator(&mut self, key: &[u8]) -> Result<bool, StoreFault>
        ensures told { IsSure T.is_open self.new
            → IfOk result (λ told. TellsTruly self.old.seen told
            (λ midnight s. is_operator midnight s key.now)) }
        ensures same { IsSure T.is_open self.new → self.new.seen ≡ self.old.seen }
        ensures crash { AddsNothing T.is_honest T.is_open T.may_leave
            self.old.tables self.new.tables (OnOk result) }
        ensures refusals_counted { IsSure T.is_open self.new → AreReached self.old.seen.content
            → CountsRefusal result (T.refusals self.old.tables) (T.refusals self.new.tables) }
        ensures sure { IsSure T.is_open self.new → IsSure T.is_open self.old }
    {
        let settings = self.tables.settings()?;
        Ok(settings.operator_key.as_bytes() == key)
    }

    /// Whether a key is that of the party of an account.
    fn is_holder(&mut self, account: &Account, key: &[u8]) -> Result<bool, StoreFault>
        ensures told { IsSure T.is_open self.new
            → IfOk result (λ told. TellsTruly self.old.seen told
            (λ midnight s. is_holder midnight s account.now key.now)) }
        ensures same { IsSure T.is_open self.new → self.new.seen ≡ self.old.seen }
        ensures crash { AddsNothing T.is_honest T.is_open T.may_leave
            self.old.tables self.new.tables (OnOk result) }
        ensures refusals_counted { IsSure T.is_open self.new → AreReached self.old.seen.content
            → CountsRefusal result (T.refusals self.old.tables) (T.refusals self.new.tables) }
        ensures sure { IsSure T.is_open self.new → IsSure T.is_open self.old }
    {
        match self.tables.party(&account.party)? {
            Some(party) => Ok(party.key.as_bytes() == key),
            None => Ok(false),
        }
    }
}
