//! The tables of an office, kept in a database.

ghost use Rattle.std.specs.Prelude.{◌≡◌, ◌≢◌, Err, IfErr, IfOk, IsTrue, MatchResult, OnErr, OnOk};
ghost use Rattle.sqlite.specs.Held.{state};
ghost use Rattle.sqlite.specs.State.{HasCleanDisk};
ghost use Rattle.hh_time.specs.Days.{Midnights};
ghost use Rattle.hh_states.specs.Content.{Content, empty_content, tables_of};
ghost use Rattle.hh_states.specs.States.{empty_state};
ghost use Rattle.hh_keyed_rows.specs.Values.{version};
ghost use Rattle.hh_sqlrows.specs.OfficeSchema.{nothing, office, office_of_one};
ghost use Rattle.hh_store.specs.declared.store_fault.StoreFault.TheVariants.{Store};
ghost use Rattle.hh_sqlrows.specs.Holds.{Holds, IsNewOffice};
ghost use Rattle.hh_sqlrows.specs.Leaving.{KeepsHeld, LeavesDatabase};
ghost use Rattle.hh_sqlrows.specs.Reads.{IsHonest};
ghost use Rattle.hh_sqlmigration.specs.Versions.{IsMigrated, MayMigrate};
ghost use Rattle.hh_sqlschema.specs.TakenOver.{MayKeepBeside, TakesOver};
ghost use Rattle.hh_sqlschema.specs.Making.{MayMake};
ghost use Rattle.hh_sqlstore.specs.Stores.{content_in};

use crate::adopting::take_over;
use hh_num::Pence;
use hh_rows::Settings;
use hh_sqlmigration::migrate;
use hh_sqlschema::{Rising, make_office};
use hh_states::PostingKey;
use hh_store::StoreFault;
use sqlite::{Alter, Connection};
use std::alloc::Global;
use std::marker::Model;

/// The tables of an office, kept in an SQL database.
pub struct SqlTables<S: Alter> {
    pub(crate) alloc: Global,
    pub(crate) connection: Connection<S>,
    pub(crate) settings: Settings,
    pub(crate) refusals: u64,
    /// All postings, if they were read after the last change.
    pub(crate) posted: Option<Vec<(PostingKey, Pence)>>,
}

impl<S: Alter> Model for SqlTables<S> {
    ghost use Rattle.hh_sqlstore.specs.Stores.{IsIdle, Stored, stored_code};

    ghost Value = { Stored S };

    ghost coded = { stored_code S.code };

    ghost view = { λ t. record {
      connection = t.connection;
      settings = t.settings;
      refusals = t.refusals;
    } };

    ghost invariant = { λ t. IsIdle S.Store (record {
      connection = t.connection;
      settings = t.settings;
      refusals = t.refusals;
    }) t.posted };
}

impl<S: Alter> SqlTables<S> {
    /// Makes the tables of an office with these settings, in which nothing has been accepted, in an empty
    /// database. That is one transaction.
    ///
    /// # Errors
    ///
    /// `Memory`: memory was refused. `Store`: the database has a table, or refuses for another reason. The
    /// connection is returned, and the database is as it was.
    pub fn create(
        alloc: Global,
        mut connection: Connection<S>,
        settings: Settings,
    ) -> Result<SqlTables<S>, (StoreFault, Connection<S>)>
        ensures open { IfOk result (λ tables. HasCleanDisk (state S.Store tables.connection)
            → IsTrue (state S.Store tables.connection).is_open) }
        ensures is_new { IfOk result (λ tables. IsTrue (state S.Store tables.connection).is_open
            → IsNewOffice settings (state S.Store tables.connection).committed) }
        ensures empty { IfOk result (λ tables. IsTrue (state S.Store tables.connection).is_open
            → content_in S.Store tables ≡ empty_content settings) }
        ensures represents { IfOk result (λ tables. IsTrue (state S.Store tables.connection).is_open
            → (midnight : Midnights)
            → content_in S.Store tables ≡ tables_of midnight (empty_state settings)) }
        ensures unrefused { IfOk result (λ tables. tables.refusals ≡ 0) }
        ensures undone { IfErr result (λ e.
            LeavesDatabase (state S.Store connection) (state S.Store e.1)) }
        ensures foreign { (state S.Store connection).now.schema ≢ nothing
            → MatchResult result (λ _. ⊥) (λ e. e.0 ≡ Store) }
        ensures crash { MatchResult result
            (λ tables. MayMake settings (state S.Store connection) (state S.Store tables.connection))
            (λ e. MayMake settings (state S.Store connection) (state S.Store e.1)) }
    {
        match make_office(&mut connection, alloc, &settings) {
            Ok(()) => Ok(SqlTables {
                alloc,
                connection,
                settings,
                refusals: 0,
                posted: None,
            }),
            Err(fault) => Err((StoreFault::from(fault), connection)),
        }
    }

    /// How often the database has refused a call for another reason than memory.
    pub fn refusals(&self) -> u64
        ensures { result ≡ self.now.refusals }
    {
        self.refusals
    }

    /// The connection. It may be closed then.
    pub fn into_connection(self) -> Connection<S>
        ensures same { result ≡ self.connection }
        ensures holds { IsTrue (state S.Store result).is_open
            → Holds version (content_in S.Store self) (state S.Store result).committed }
    {
        let SqlTables {
            alloc: _,
            connection,
            settings: _,
            refusals: _,
            posted: _posted,
        } = self;
        connection
    }
}

impl<S: Rising> SqlTables<S> {
    /// Takes the database of an office of version 1 to the present version, in one transaction. Its content
    /// stays as it is, and so does what is kept beside it. A database of the present version is left as it
    /// is. The connection is returned.
    ///
    /// # Errors
    ///
    /// `Memory`: memory was refused. `Store`: a transaction is under way; or the database has tables other
    /// than those of version 1 or of the present one; or its settings name another version, or are off their
    /// grammar; or it refuses for another reason. The database is as it was.
    pub fn migrate(
        alloc: Global,
        mut connection: Connection<S>,
    ) -> (Result<(), StoreFault>, Connection<S>)
        ensures migrated { HasCleanDisk (state S.Store result.1)
            → OnOk result.0 (IsMigrated (state S.Store connection) (state S.Store result.1)) }
        ensures undone { HasCleanDisk (state S.Store result.1)
            → OnErr result.0 (LeavesDatabase (state S.Store connection) (state S.Store result.1)) }
        ensures crash { MayMigrate (state S.Store connection) (state S.Store result.1) }
        ensures honest { IsHonest (state S.Store connection) (state S.Store result.1) }
        ensures foreign { let schema = (state S.Store connection).now.schema in
            schema ≢ office_of_one → schema ≢ office → result.0 ≡ Err Store }
    {
        match migrate(&mut connection, alloc) {
            Ok(()) => (Ok(()), connection),
            Err(fault) => (Err(StoreFault::from(fault)), connection),
        }
    }

    /// The tables of the office in this database. Its content stays as it is. If no positions are kept in
    /// it, they are kept from now on: they are made from the contracts in force, and each Settlement Period
    /// of each run counts as touched. That is one transaction.
    ///
    /// # Errors
    ///
    /// `Memory`: memory was refused. `Store`: a transaction is under way; or the database has tables other
    /// than an office's, or tables of another version; or its settings are off their grammar; or it has no
    /// mark that says whether positions are kept; or it has positions although the mark says that none are
    /// kept; or it refuses for another reason. The connection is returned, and the database is as it was.
    pub fn adopt(
        alloc: Global,
        mut connection: Connection<S>,
    ) -> Result<SqlTables<S>, (StoreFault, Connection<S>)>
        ensures open { IfOk result (λ tables. HasCleanDisk (state S.Store tables.connection)
            → IsTrue (state S.Store tables.connection).is_open) }
        ensures holds { IfOk result (λ tables. IsTrue (state S.Store tables.connection).is_open
            → Holds version (content_in S.Store tables) (state S.Store connection).committed) }
        ensures content { (content : Content)
            → Holds version content (state S.Store connection).committed
            → IfOk result (λ tables. IsTrue (state S.Store tables.connection).is_open
            → content_in S.Store tables ≡ content) }
        ensures unrefused { IfOk result (λ tables. tables.refusals ≡ 0) }
        ensures left { MatchResult result
            (λ tables. TakesOver (state S.Store connection) (state S.Store tables.connection))
            (λ e. LeavesDatabase (state S.Store connection) (state S.Store e.1)) }
        ensures crash { MatchResult result
            (λ tables. MayKeepBeside (state S.Store connection) (state S.Store tables.connection))
            (λ e. MayKeepBeside (state S.Store connection) (state S.Store e.1)) }
        ensures keeps { MatchResult result
            (λ tables. KeepsHeld (state S.Store connection) (state S.Store tables.connection))
            (λ e. KeepsHeld (state S.Store connection) (state S.Store e.1)) }
        ensures foreign { (state S.Store connection).now.schema ≢ office
            → MatchResult result (λ _. ⊥) (λ e. e.0 ≡ Store) }
    {
        match take_over(&mut connection, alloc) {
            Ok(settings) => Ok(SqlTables {
                alloc,
                connection,
                settings,
                refusals: 0,
                posted: None,
            }),
            Err(fault) => Err((StoreFault::from(fault), connection)),
        }
    }
}
