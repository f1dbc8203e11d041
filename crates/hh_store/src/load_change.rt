//! What an accepted file changes in the tables.

ghost use Rattle.std.specs.Prelude.{◌≡◌};

use crate::kept_file::KeptFile;
use hh_states::{Counterparties, FileKey, FileKind, FileName, Reference, Row};
use std::marker::Model;

/// What is written into the tables for an accepted file: the file with the counts of its reply, its rows
/// that are not late, and the references that it fixes, both in the file's order.
#[derive(Debug, Drop)]
pub struct LoadChange {
    kind: FileKind,
    name: FileName,
    file: KeptFile,
    rows: Vec<Row>,
    references: Vec<(Reference, Counterparties)>,
}

impl Model for LoadChange {
    ghost use Rattle.hh_states.specs.Changes.{LoadChangeView};

    ghost Value = { LoadChangeView };

    ghost view = { λ c. record {
      key = record { kind = c.kind; name = c.name };
      file = c.file;
      rows = c.rows.items;
      references = c.references.items;
    } };
}

impl LoadChange {
    /// What is written for a file of this kind and name with these rows in time and new references.
    pub fn new(
        kind: FileKind,
        name: FileName,
        file: KeptFile,
        rows: Vec<Row>,
        references: Vec<(Reference, Counterparties)>,
    ) -> LoadChange
        ensures { result ≡ record {
          key = record { kind = kind; name = name };
          file = file;
          rows = rows.items;
          references = references.items;
        } }
    {
        LoadChange {
            kind,
            name,
            file,
            rows,
            references,
        }
    }

    /// The key under which the file is kept.
    pub fn key(&self) -> FileKey
        ensures { result ≡ self.now.key }
    {
        FileKey {
            kind: self.kind,
            name: self.name,
        }
    }

    /// The file with the counts of its reply. It is moved, not copied.
    pub fn into_file(self) -> KeptFile
        ensures { result ≡ self.file }
    {
        self.file
    }

    /// The file with the counts of its reply.
    pub fn file(&self) -> &KeptFile
        ensures { result.now ≡ self.now.file }
    {
        &self.file
    }

    /// The rows that are not late, in the order of the file.
    pub fn rows(&self) -> &[Row]
        ensures { result.now ≡ self.now.rows }
    {
        &self.rows
    }

    /// The references that the file fixes, with their sellers and buyers, in the order of the file.
    pub fn references(&self) -> &[(Reference, Counterparties)]
        ensures { result.now ≡ self.now.references }
    {
        &self.references
    }
}
