//! What the tables of an office tell about everything that calls name, as a text. Tables with different
//! content have different texts.

use crate::calls::Call;
use crate::stop::TrialStop;
use crate::ways::ROOM;
use hh_devices::MemorySink;
use hh_names::{Account, Side};
use hh_requests::{Action, Upload};
use hh_rows::{Row, UnitRow};
use hh_rules::Register;
use hh_runs::RunKey;
use hh_store::Tables;
use std::alloc::{AllocError, Global};
use std::fmt::Debug;

/// Appends a value as text.
fn tell<V: Debug>(text: &mut Vec<u8>, value: &V) -> Result<(), AllocError> {
    let line = format!(in *text.allocator(); "{value:?}\n")?;
    text.extend_from_slice(line.as_bytes())
}

/// What tables tell about what these calls name.
pub(crate) fn contents_of<T: Tables>(
    alloc: Global,
    tables: &mut T,
    calls: &[Call],
) -> Result<Vec<u8>, TrialStop> {
    let mut text = Vec::new(alloc);
    tell(&mut text, &tables.settings()?)?;
    for call in calls {
        tell_call(tables, call, &mut text)?;
    }
    let mut sink = MemorySink::with_room(alloc, ROOM)?;
    tables.balances(&mut sink).ok().ok_or(TrialStop::Output)?;
    text.extend_from_slice(sink.taken())?;
    Ok(text)
}

/// Appends what they tell about what one call names.
fn tell_call<T: Tables>(tables: &mut T, call: &Call, text: &mut Vec<u8>) -> Result<(), TrialStop> {
    match call.asked.action() {
        Some(Action::Load(upload)) => tell_file(tables, upload, &call.rows, text),
        Some(Action::Run(run)) => tell_run(tables, run, text),
        Some(Action::Contracts { account, date }) => {
            Ok(tell(text, &tables.contracts(account, *date)?)?)
        }
        Some(Action::Runs { date }) => Ok(tell(text, &tables.runs(*date)?)?),
        Some(Action::Account { .. } | Action::Balance { .. }) | None => Ok(()),
    }
}

/// Appends what they tell about a run: the runs of its date, and its rows if it exists.
fn tell_run<T: Tables>(tables: &mut T, run: &RunKey, text: &mut Vec<u8>) -> Result<(), TrialStop> {
    let runs = tables.runs(run.date)?;
    tell(text, &runs)?;
    if let Some((_, summary)) = runs.iter().find(|made| made.0 == run.kind) {
        let mut sink = MemorySink::with_room(*text.allocator(), ROOM)?;
        let told = tables.export(run, summary, &mut sink);
        told.ok().ok_or(TrialStop::Output)?;
        text.extend_from_slice(sink.taken())?;
    }
    Ok(())
}

/// Appends what they tell about a file and about what its rows name.
fn tell_file<T: Tables>(
    tables: &mut T,
    upload: &Upload,
    rows: &[Row],
    text: &mut Vec<u8>,
) -> Result<(), TrialStop> {
    if let Some(file) = tables.file(upload.kind, &upload.name)? {
        tell(text, &(file.applied(), file.late()))?;
        text.extend_from_slice(file.body())?;
    }
    tell_rows(&tables.register(rows)?, rows, text)?;
    for row in rows {
        tell_party(tables, row, text)?;
    }
    Ok(())
}

fn tell_rows(register: &Register, rows: &[Row], text: &mut Vec<u8>) -> Result<(), AllocError> {
    tell(text, &(register.party_count(), register.unit_count()))?;
    for row in rows {
        tell_row(register, row, text)?;
    }
    Ok(())
}

/// Appends what a register tells about what a row names.
fn tell_row(register: &Register, row: &Row, text: &mut Vec<u8>) -> Result<(), AllocError> {
    match row {
        Row::Party(row) => tell(text, &register.party(&row.party)),
        Row::Unit(row) => tell_unit(register, row, text),
        Row::Meter(row) => tell(text, &register.reading(&row.key)),
        Row::Price(row) => tell(text, &register.price(&row.at)),
        Row::Contract(row) => {
            tell(text, &register.reference(&row.key.reference))?;
            tell(text, &register.contract(&row.key))
        }
        Row::Reallocation(row) => tell(text, &register.reallocation(&row.key)),
    }
}

/// Appends what a register tells about a unit, and who leads it on the first and the last of a row's dates.
fn tell_unit(register: &Register, row: &UnitRow, text: &mut Vec<u8>) -> Result<(), AllocError> {
    let (from, to) = row.registration.range.ends();
    tell(text, &register.unit(&row.unit))?;
    tell(text, &register.lead_on(&row.unit, from))?;
    tell(text, &register.lead_on(&row.unit, to))
}

/// Appends what they tell about a row's party, if it is of one: its key, and its accounts' postings.
fn tell_party<T: Tables>(tables: &mut T, row: &Row, text: &mut Vec<u8>) -> Result<(), TrialStop> {
    let Row::Party(row) = row else {
        return Ok(());
    };
    tell(text, &tables.key_known(row.registration.key.as_bytes())?)?;
    for side in [Side::Production, Side::Consumption] {
        let account = Account {
            party: row.party,
            side,
        };
        tell(text, &tables.postings(&account)?)?;
    }
    Ok(())
}
