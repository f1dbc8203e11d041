//! The tables of new offices, in memory and in a database file.

use crate::office::{files_at, open};
use crate::stop::TrialStop;
use hh_names::OperatorKey;
use hh_plain_tables::PlainTables;
use hh_rows::{LeadMinutes, Settings};
use hh_sqlstore::SqlTables;
use hh_store::Tables;
use sqlite::{Connection, FileStore, Options};
use sqlite_disk::Disk;
use sqlite_std_file::File;
use std::alloc::{AllocError, Global};
use std::fs;

/// Where tables are kept.
pub(crate) trait Store: Drop {
    type Tables: Tables;

    /// The tables of a new office. They replace those that were kept here before.
    fn begin(&self, rt: &HostRuntime) -> Result<Self::Tables, TrialStop>;

    /// Bytes that do not change as long as the tables don't, if there are any.
    fn stamp(&self, rt: &HostRuntime) -> Result<Option<Vec<u8>>, TrialStop>;

    /// Drops or closes the tables.
    fn end(&self, tables: Self::Tables) -> Result<(), TrialStop>;
}

/// Tables in memory.
#[derive(Drop)]
pub(crate) struct InMemory;

/// Tables in a database file at this path.
#[derive(Drop)]
pub(crate) struct InFile<'a> {
    pub(crate) path: &'a str,
}

/// The settings of each office.
fn settings() -> Result<Settings, TrialStop> {
    Ok(Settings {
        lead_minutes: LeadMinutes::default(),
        operator_key: OperatorKey::read(b"op-settle001").ok_or(TrialStop::Words)?,
    })
}

impl Store for InMemory {
    type Tables = PlainTables;

    fn begin(&self, rt: &HostRuntime) -> Result<PlainTables, TrialStop> {
        Ok(PlainTables::new(rt.alloc(), settings()?))
    }

    /// Tables in memory have no such bytes.
    fn stamp(&self, _rt: &HostRuntime) -> Result<Option<Vec<u8>>, TrialStop> {
        Ok(None)
    }

    fn end(&self, _tables: PlainTables) -> Result<(), TrialStop> {
        Ok(())
    }
}

impl Store for InFile<'_> {
    type Tables = SqlTables<FileStore<File>>;

    fn begin(&self, rt: &HostRuntime) -> Result<SqlTables<FileStore<File>>, TrialStop> {
        let log = self.log(rt.alloc())?;
        let _ = fs::remove_file(rt, self.path);
        let _ = fs::remove_file(rt, log.as_str());
        let (files, settings) = (files_at(rt, self.path)?, settings()?);
        made_in(
            rt.alloc(),
            open(rt.alloc(), files, Options::new(1))?,
            settings,
        )
    }

    /// The bytes of the database and of its log.
    fn stamp(&self, rt: &HostRuntime) -> Result<Option<Vec<u8>>, TrialStop> {
        let log = self.log(rt.alloc())?;
        let mut bytes = fs::read(rt, self.path)?;
        bytes.extend_from_slice(&fs::read(rt, log.as_str())?)?;
        Ok(Some(bytes))
    }

    fn end(&self, tables: SqlTables<FileStore<File>>) -> Result<(), TrialStop> {
        Ok(tables.into_connection().close()?)
    }
}

fn made_in<D: Disk + Drop>(
    alloc: Global,
    connection: Connection<FileStore<D>>,
    settings: Settings,
) -> Result<SqlTables<FileStore<D>>, TrialStop> {
    match SqlTables::create(alloc, connection, settings) {
        Ok(tables) => Ok(tables),
        Err((fault, connection)) => {
            let _ = connection.close();
            Err(TrialStop::from(fault))
        }
    }
}

impl InFile<'_> {
    /// The path of the log beside the database.
    fn log(&self, alloc: Global) -> Result<String, AllocError> {
        let path = self.path;
        format!(in alloc; "{path}-wal")
    }
}
