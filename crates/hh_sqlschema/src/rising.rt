//! Stores whose rowids rise. Whether one of their databases is an office's.

ghost use Rattle.std.specs.Prelude.{◌≡◌, false, IsTrue};
ghost use Rattle.sqlite.specs.Held.{state};
ghost use Rattle.sqlite_schema.specs.declared.schema.Schema.{Schema};
ghost use Rattle.sqlite_catalog.specs.Listing.{IsSound};
ghost use Rattle.hh_sqlrows.specs.Office.{IsOffice, RowidsRise};
ghost use Rattle.hh_sqlrows.specs.OfficeSchema.{office, office_of_one};
ghost use Rattle.hh_sqltables.specs.Forms.{IsOfficeOf};
ghost use Rattle.hh_sqlschema.specs.RiseLaws.{file_rowids_rise};

use crate::schema::{is_office, is_office_of_one};
use sqlite::{Alter, Connection, FileStore};
use sqlite_disk::Disk;

/// A store in whose last commit the rowids of each table rise, as long as it is open.
pub trait Rising: Alter {
    ghost rises: { (s : Self) (schema : Schema) → IsTrue (Self.Store.view s).is_open
        → IsSound schema (Self.Store.view s).committed → RowidsRise schema (Self.Store.view s).committed };
}

impl<D: Disk> Rising for FileStore<D> {
    ghost rises = { λ s schema is_open sound. file_rowids_rise s schema is_open sound };
}

/// Whether the database of a connection has the tables of an office, and no transaction is under way.
pub(crate) fn has_office<S: Rising>(connection: &Connection<S>) -> bool
    ensures autocommit { IsTrue result → connection.now.in_transaction ≡ false }
    ensures settled { let s = state S.Store connection.now in
        IsTrue result → IsTrue s.is_open → s.now ≡ s.committed }
    ensures only { let s = state S.Store connection.now in
        IsTrue result → IsTrue s.is_open → IsOffice s.now }
    ensures schema { IsTrue result → (state S.Store connection.now).now.schema ≡ office }
    ensures known { connection.now.in_transaction ≡ false
        → (state S.Store connection.now).now.schema ≡ office → IsTrue result }
{
    if !connection.is_autocommit() {
        return false;
    }
    is_office(connection.schema())
}

/// Whether the database of a connection has the tables of version 1, and no transaction is under way.
pub fn has_office_of_one<S: Rising>(connection: &Connection<S>) -> bool
    ensures autocommit { IsTrue result → connection.now.in_transaction ≡ false }
    ensures settled { let s = state S.Store connection.now in
        IsTrue result → IsTrue s.is_open → s.now ≡ s.committed }
    ensures only { let s = state S.Store connection.now in
        IsTrue result → IsTrue s.is_open → IsOfficeOf office_of_one s.now }
    ensures schema { IsTrue result → (state S.Store connection.now).now.schema ≡ office_of_one }
    ensures known { connection.now.in_transaction ≡ false
        → (state S.Store connection.now).now.schema ≡ office_of_one → IsTrue result }
{
    if connection.is_autocommit() {
        is_office_of_one(connection.schema())
    } else {
        false
    }
}
