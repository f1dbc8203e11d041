//! Which rows of an accepted file were late.

use crate::load::RowsFile;
use hh_names::{Fault, Refusal};
use hh_rows::{LeadMinutes, Row, SettlementPeriod};
use hh_texts::read_file;
use hh_time::{Day, deadline, london};
use jiff::tz::TimeZone;
use std::alloc::{AllocError, Global};

/// Which rows of an accepted file were late: the file's path and then their numbers. `late` says how many
/// were.
///
/// A row is late if its moment is at its deadline or after it. So the late rows of a file are those with
/// the earliest deadlines, and their count says which they are. No moment is needed: a file that is sent
/// again is answered as it was the first time, whatever the moment is now.
pub fn late_rows(
    alloc: Global,
    file: &RowsFile<'_>,
    lead: LeadMinutes,
    late: u32,
) -> Result<String, AllocError> {
    let deadlines = deadlines(alloc, file, lead)?;
    let last = last_late(&deadlines, late)?;
    let path = file.path;
    let word = if late == 1 { "row" } else { "rows" };
    let mut text = format!(in alloc; "{path}: late: {word}")?;
    push_late(&mut text, &deadlines, last)?;
    Ok(text)
}

/// The deadlines of a file's rows. It is `i64::MAX` for a row that has none.
fn deadlines(
    alloc: Global,
    file: &RowsFile<'_>,
    lead: LeadMinutes,
) -> Result<Vec<i64>, AllocError> {
    let rows = match read_file(alloc, file.kind, file.body) {
        Ok(rows) => rows,
        Err(
            Fault {
                refusal: Refusal::Memory,
                ..
            },
        ) => return Err(AllocError),
        Err(_) => Vec::new(alloc),
    };
    let zone = london();
    let mut day = None;
    let mut deadlines = Vec::new(alloc);
    for row in &rows {
        let at = notified_period(row);
        deadlines.push(deadline_of(&mut day, &zone, lead, at).unwrap_or(i64::MAX))?;
    }
    Ok(deadlines)
}

/// The period that a row is a notification of, if it is one.
fn notified_period(row: &Row) -> Option<SettlementPeriod> {
    match row {
        Row::Contract(row) => Some(row.key.at),
        Row::Reallocation(row) => Some(row.key.unit_period.at),
        Row::Party(_) | Row::Unit(_) | Row::Meter(_) | Row::Price(_) => None,
    }
}

/// The deadline of notifications of a period, if there is such a period. The day that was asked for last is
/// kept, because most files name only one date.
fn deadline_of(
    last: &mut Option<Day>,
    zone: &TimeZone<'_>,
    lead: LeadMinutes,
    at: Option<SettlementPeriod>,
) -> Option<i64> {
    let at = at?;
    let is_known = match *last {
        Some(day) => day.date == at.date,
        None => false,
    };
    if !is_known {
        *last = Day::of(at.date, zone);
    }
    let day = (*last)?;
    let period = at.period.number();
    if day.has_period(period) {
        Some(deadline(&day, period, lead.minutes()))
    } else {
        None
    }
}

/// The latest of the `late` earliest deadlines.
fn last_late(deadlines: &Vec<i64>, late: u32) -> Result<i64, AllocError> {
    let mut sorted = deadlines.clone()?;
    sorted.sort_unstable();
    let last = match late.checked_sub(1) {
        Some(place) => sorted.get(place as usize).copied(),
        None => None,
    };
    Ok(last.unwrap_or(i64::MIN))
}

/// Rows one after the other, by the number of the first and of the last.
#[derive(Clone, Copy)]
struct Rows {
    first: usize,
    last: usize,
}

/// Adds the numbers of the rows whose deadline isn't after `last`.
fn push_late(text: &mut String, deadlines: &[i64], last: i64) -> Result<(), AllocError> {
    let mut before = "";
    let mut open: Option<Rows> = None;
    for (place, deadline) in deadlines.iter().enumerate() {
        let is_late = *deadline <= last && *deadline < i64::MAX;
        let number = place.saturating_add(1);
        open = match (open, is_late) {
            (Some(rows), true) => Some(Rows {
                last: number,
                ..rows
            }),
            (None, true) => Some(Rows {
                first: number,
                last: number,
            }),
            (Some(rows), false) => {
                push_rows(text, before, rows)?;
                before = ",";
                None
            }
            (None, false) => None,
        };
    }
    match open {
        Some(rows) => push_rows(text, before, rows),
        None => Ok(()),
    }
}

fn push_rows(text: &mut String, before: &str, rows: Rows) -> Result<(), AllocError> {
    let Rows { first, last } = rows;
    if first == last {
        write!(text, "{before} {first}")
    } else {
        write!(text, "{before} {first} to {last}")
    }
}
