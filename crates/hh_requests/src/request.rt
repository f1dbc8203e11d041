//! The requests to an office.

ghost use Rattle.std.specs.Prelude.{◌≡◌};

use hh_rows::{Account, FileBody, FileKind, FileName};
use hh_runs::RunKey;
use hh_time::SettlementDate;
use std::marker::Model;

/// The bytes of a key, as they came. Contracts see the list of them.
#[derive(Debug, Drop)]
pub struct Bytes {
    items: Vec<u8>,
}

impl Model for Bytes {
    ghost use Rattle.std.specs.Prelude.{List, ℕ};

    ghost Value = { List ℕ };

    ghost view = { λ bytes. bytes.items.items };
}

impl Bytes {
    /// These bytes.
    pub fn new(items: Vec<u8>) -> Bytes
        ensures { result ≡ items.items }
    {
        Bytes { items }
    }

    /// The bytes, as a slice.
    pub fn as_slice(&self) -> &[u8]
        ensures { result.now ≡ self.now }
    {
        &self.items
    }
}

/// A file that is sent. Its name is the one under which it is kept, and never a path (profile).
#[derive(Debug, Drop)]
pub struct Upload {
    pub kind: FileKind,
    pub name: FileName,
    pub body: FileBody,
}

/// What is asked for.
#[derive(Debug, Drop)]
pub enum Action {
    /// To load a file.
    Load(Upload),
    /// To make the run of a date and kind.
    Run(RunKey),
    /// What an account has and pays in the latest run of a date (Section T in shape).
    Account {
        account: Account,
        date: SettlementDate,
    },
    /// What the runs of all dates have posted to an account.
    Balance {
        account: Account,
    },
    /// Which contracts of an account are in force on a date (Section P in shape).
    Contracts {
        account: Account,
        date: SettlementDate,
    },
    /// Which runs a date has.
    Runs {
        date: SettlementDate,
    },
}

/// A request: what is asked for, and the key that is shown with it.
#[derive(Debug, Drop)]
pub struct Request {
    pub key: Bytes,
    pub action: Action,
}
