//! What is left of a database after an office used it, and why the lines of a script are not run, or not to
//! their end.

ghost use Rattle.std.specs.Prelude.{◌≡◌, IsTrue};
ghost use Rattle.sqlite.specs.Held.{state};
ghost use Rattle.hh_sqlstore.specs.Values.{version};
ghost use Rattle.hh_sqlstore.specs.Holds.{Holds};
ghost use Rattle.hh_sqlstore.specs.Stores.{content_in};

use hh_session::LinesStop;
use hh_sqlstore::SqlTables;
use hh_store::StoreFault;
use sqlite::{Alter, Connection};

/// What is left after an office used a database: the connection, and how often the database has refused the
/// office for another reason than memory.
pub struct AfterUse<S: Alter> {
    pub connection: Connection<S>,
    pub refusals: u64,
}

impl<S: Alter> AfterUse<S> {
    /// What is left of tables that no office uses any more.
    pub fn of(tables: SqlTables<S>) -> AfterUse<S>
        ensures connection { result.connection ≡ tables.connection }
        ensures refusals { result.refusals ≡ tables.refusals }
        ensures holds { IsTrue (state S.Store result.connection).is_open
            → Holds version (content_in S.Store tables) (state S.Store result.connection).committed }
    {
        let refusals = tables.refusals();
        AfterUse {
            connection: tables.into_connection(),
            refusals,
        }
    }

    /// The connection.
    pub fn into_connection(self) -> Connection<S>
        ensures { result ≡ self.connection }
    {
        let AfterUse {
            connection,
            refusals: _,
        } = self;
        connection
    }
}

/// Why the lines of a script are not run over a database, or not to their end.
#[derive(Clone, Copy, Debug, PartialEq, Eq)]
pub enum DatabaseStop {
    /// The office's tables were not made or not taken over. Nothing was run.
    Refused(StoreFault),
    /// The lines were not run to their end.
    Early(LinesStop),
}
