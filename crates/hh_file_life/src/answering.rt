//! The answer to one command, over an open connection.

ghost use Rattle.jiff.specs.Words.{plain_zone};
ghost use Rattle.sqlite.specs.Held.{state};
ghost use Rattle.hh_time.specs.Zone.{midnight_in};
ghost use Rattle.hh_file_life.specs.steps.Answers.{AnswersIn, AnswersOver, KeepsReached};

use crate::life::FileCommand;
use hh_names::Fault;
use hh_office::Office;
use hh_requests::{Action, Reply, Request};
use hh_sqlstore::{Rising, SqlTables};
use hh_store::Tables;
use jiff::tz::TimeZone;
use sqlite::Connection;
use std::alloc::Global;

/// Answers a command at the office in this database, and returns the connection.
pub(crate) fn answer<S: Rising>(
    alloc: Global,
    connection: Connection<S>,
    zone: &TimeZone<'_>,
    command: &FileCommand,
) -> (Reply, Connection<S>)
    ensures { AnswersIn (midnight_in (plain_zone zone.now)) command.now
        (state S.Store connection) (state S.Store result.1) result.0 }
{
    match SqlTables::adopt(alloc, connection) {
        Ok(tables) => {
            let (reply, tables) = answer_over(alloc, tables, zone, command);
            (reply, tables.into_connection())
        }
        Err((fault, connection)) => (Reply::Refused(Fault::from(fault)), connection),
    }
}

/// Answers a command at an office with these tables, and returns the tables.
fn answer_over<T: Tables>(
    alloc: Global,
    tables: T,
    zone: &TimeZone<'_>,
    command: &FileCommand,
) -> (Reply, T)
    ensures { AnswersOver T.is_honest T.is_open T.may_leave T.holds T.content
        (midnight_in (plain_zone zone.now)) command.now tables result.1 result.0 }
{
    keeps_reached(&command.request);
    let mut office = Office::new(alloc, tables, *zone);
    let reply = office.handle(command.moment, &command.request);
    (reply, office.into_tables())
}

/// Does nothing, but carries a fact for a proof: the machine reaches the state after this request.
fn keeps_reached(request: &Request)
    ensures { KeepsReached request.now }
{
    if let Action::Load(upload) = &request.action {
        upload.name.as_bytes();
    }
}
