//! What comes of an office's database that may be damaged: the answers, what is told, and what is left.

use crate::calls::{Asked, Call};
use crate::stop::{TrialStop, refusal_of};
use hh_devices::MemorySink;
use hh_http_replies::write_reply;
use hh_names::Fault;
use hh_office::{Office, ReportStop};
use hh_requests::Reply;
use hh_sqlstore::{Rising, SqlTables};
use hh_store::Tables;
use hh_time::london;
use sqlite::{Connection, Options};
use sqlite_disk::{Disk, Files, Memory};
use std::alloc::Global;

/// More bytes than all replies and reports have.
const ROOM: usize = 16_777_216;

/// What came of a database.
#[derive(Drop)]
pub(crate) struct Course {
    pub(crate) heard: Heard,
    /// The files in the end.
    pub(crate) left: Files<Memory>,
}

/// What an office answered.
#[derive(Drop)]
pub(crate) struct Heard {
    /// The number of the refusal to open the database, and of that of each call. 0 is no refusal.
    pub(crate) numbers: Vec<u8>,
    told: MemorySink,
}

impl Course {
    /// Whether the same came of two databases.
    pub(crate) fn is_same(&self, other: &Course) -> bool {
        self.heard.numbers == other.heard.numbers
            && self.heard.told.taken() == other.heard.told.taken()
            && self.left.db.bytes() == other.left.db.bytes()
            && self.left.log.bytes() == other.left.log.bytes()
    }
}

/// What comes of a database of these two files, which is not closed, if these calls are asked of its office.
pub(crate) fn course_of(
    alloc: Global,
    db: &[u8],
    log: &[u8],
    calls: &[Call],
) -> Result<Course, TrialStop> {
    let mut heard = Heard {
        numbers: Vec::new(alloc),
        told: MemorySink::with_room(alloc, ROOM)?,
    };
    let files = Files {
        log: disk_of(alloc, log)?,
        db: disk_of(alloc, db)?,
    };
    let left = heard.asked_of(alloc, files, calls)?;
    Ok(Course { heard, left })
}

/// A disk in memory with these bytes.
fn disk_of(alloc: Global, bytes: &[u8]) -> Result<Memory, TrialStop> {
    let mut disk = Memory::new(alloc);
    disk.write_at(0, bytes)?;
    disk.sync()?;
    Ok(disk)
}

impl Heard {
    /// Asks the office in a database of these files the calls, if they can be opened. The files in the end.
    fn asked_of<D: Disk + Drop>(
        &mut self,
        alloc: Global,
        files: Files<D>,
        calls: &[Call],
    ) -> Result<Files<D>, TrialStop> {
        if !files.may_be_used() {
            return Err(TrialStop::Input);
        }
        match Connection::open_files(alloc, files, Options::new(1)) {
            Ok(connection) => {
                let (asked, connection) = self.asked_over(alloc, connection, calls);
                let left = connection.into_store().close();
                asked?;
                Ok(left)
            }
            Err((error, left)) => {
                self.numbers.push(refusal_of(error).number())?;
                Ok(left.into_files())
            }
        }
    }

    /// Asks the office in a database the calls, if it is an office's.
    fn asked_over<S: Rising>(
        &mut self,
        alloc: Global,
        connection: Connection<S>,
        calls: &[Call],
    ) -> (Result<(), TrialStop>, Connection<S>) {
        let tables = match SqlTables::adopt(alloc, connection) {
            Ok(tables) => tables,
            Err((fault, connection)) => {
                let noted = self.numbers.push(Fault::from(fault).refusal.number());
                return (noted.map_err(TrialStop::from), connection);
            }
        };
        let mut office = Office::new(alloc, tables, london());
        let asked = self.ask_all(alloc, &mut office, calls);
        (asked, office.into_tables().into_connection())
    }

    fn ask_all<T: Tables>(
        &mut self,
        alloc: Global,
        office: &mut Office<'_, T>,
        calls: &[Call],
    ) -> Result<(), TrialStop> {
        self.numbers.push(0)?;
        for call in calls {
            let number = self.ask(alloc, office, call)?;
            self.numbers.push(number)?;
        }
        Ok(())
    }

    /// The number of the refusal of a call, or 0. What is told is kept.
    fn ask<T: Tables>(
        &mut self,
        alloc: Global,
        office: &mut Office<'_, T>,
        call: &Call,
    ) -> Result<u8, TrialStop> {
        match &call.asked {
            Asked::Twice([(moment, request), _]) => {
                let reply = office.handle(*moment, request);
                if write_reply(alloc, &reply, false, &mut self.told).is_err() {
                    return Err(TrialStop::no_memory());
                }
                match &reply {
                    Reply::Refused(fault) => Ok(fault.refusal.number()),
                    _ => Ok(0),
                }
            }
            Asked::Report { key, report } => match office.report(key, report, &mut self.told) {
                Ok(()) => Ok(0),
                Err(ReportStop::Refused(fault)) => Ok(fault.refusal.number()),
                Err(ReportStop::Write) => Err(TrialStop::Output),
            },
            Asked::NoRequest => Err(TrialStop::Words),
        }
    }
}
