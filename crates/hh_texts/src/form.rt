//! Forms of files, and the one reader of them all.

ghost use Rattle.std.specs.Prelude.{◌≡◌, ◌≤◌, length, map, option_map, IfOk};
ghost use Rattle.csv.specs.Records.{fields_of};
ghost use Rattle.hh_names.specs.Faults.{faults, IsOutcomeOrNoMemory};
ghost use Rattle.hh_texts.specs.Records.{IsReading, left_of};
ghost use Rattle.hh_rows.specs.RowKinds.{most_rows};
ghost use Rattle.hh_texts.specs.Rows.{FileForm, form_under, rows_of, rows_from, same_fields};

use crate::last_date::LastDate;
use crate::records::{next_record, records_in};
use csv::{ByteRecord, Reader};
use hh_names::{Fault, Refusal};
use std::alloc::Global;

/// The most bytes that a file may have.
pub const MOST_BYTES: usize = 1_048_576;

/// The most rows that a file may have, without its header.
pub const MOST_ROWS: u32 = 20_000;

/// How many bytes a row of a file is likely to have at least. Room for the rows is made by this.
const LIKELY_BYTES: usize = 32;

/// A form of file: its header, and the row that a record under it reads as.
pub trait Form {
    type Row: Drop;

    /// What contracts see of it.
    ghost form: { Self → FileForm Self.Row };

    /// The names of the columns, which are the fields of the first record.
    fn header(&self) -> &'static [&'static str]
        ensures { map (λ name. name.now) result.now ≡ (form self.now).header };

    /// The row that a record of as many fields reads as, or the first column, counted from 1, that
    /// cannot be read. `last` is the date that was read last.
    fn read_row(&self, fields: &ByteRecord, last: &mut LastDate) -> Result<Self::Row, u32>
        requires { length (fields_of fields.now) ≡ length (form self.now).header }
        ensures { result ≡ (form self.now).row (fields_of fields.now) };
}

/// The rows of a file, by the first of these forms whose header the file has, or the first fault in it.
/// `FileTooLarge` is tested first, then `BadHeader`, and then by row, from 1 without the header,
/// `TooManyRows`, `BadRecord` and `BadField`. `Memory` may be answered instead of anything else.
pub fn read_rows<F: Form>(alloc: Global, forms: &[F], bytes: &[u8]) -> Result<Vec<F::Row>, Fault>
    ensures rows { IsOutcomeOrNoMemory faults (λ rows. rows.items) result
        (rows_of (map F.form forms.now) bytes.now) }
    ensures few { IfOk result (λ rows. length rows.items ≤ most_rows) }
{
    if bytes.len() > MOST_BYTES {
        return Err(Fault::of(Refusal::FileTooLarge));
    }
    let mut reader = records_in(alloc, bytes);
    let mut header = ByteRecord::new(alloc);
    if !next_record(&mut reader, &mut header)? {
        return Err(Fault::of(Refusal::BadHeader));
    }
    match form_under(&header, forms) {
        Some(form) => rows_under(alloc, form, likely_rows(bytes), &mut reader),
        None => Err(Fault::of(Refusal::BadHeader)),
    }
}

/// For how many rows room is made at first, by the bytes of a file. If the file has other rows, this only
/// costs time or memory.
fn likely_rows(bytes: &[u8]) -> usize {
    (bytes.len() / LIKELY_BYTES).min(MOST_ROWS as usize)
}

/// The first of these forms whose header is this record.
fn form_under<'f, F: Form>(header: &ByteRecord, forms: &'f [F]) -> Option<&'f F>
    ensures { option_map (λ form. F.form form.now) result
        ≡ form_under (fields_of header.now) (map F.form forms.now) }
{
    forms.iter().find(|form| has_fields(header, form.header()))
}

/// Whether a record has these fields and no others.
fn has_fields(fields: &ByteRecord, names: &[&str]) -> bool
    ensures { result ≡ same_fields (fields_of fields.now) (map (λ name. name.now) names.now) }
{
    if fields.len() != names.len() {
        return false;
    }
    for (i, name) in names.iter().enumerate() {
        let Some(field) = fields.get(i) else {
            return false;
        };
        if field != name.as_bytes() {
            return false;
        }
    }
    true
}

/// The rows of the records that a reader has left, numbered from 1. Room for `room` of them is made at
/// first.
fn rows_under<F: Form>(
    alloc: Global,
    form: &F,
    room: usize,
    reader: &mut Reader<&[u8]>,
) -> Result<Vec<F::Row>, Fault>
    requires { IsReading reader.old }
    ensures rows { IsOutcomeOrNoMemory faults (λ rows. rows.items) result
        (rows_from (length (F.form form.now).header) (F.form form.now).row 1
        (left_of reader.old)) }
    ensures few { IfOk result (λ rows. length rows.items ≤ most_rows) }
{
    let columns = form.header().len();
    let mut rows = Vec::with_capacity(alloc, room)?;
    let mut fields = ByteRecord::new(alloc);
    let mut last = LastDate::new();
    for row in 1..=MOST_ROWS {
        if !next_record(reader, &mut fields)? {
            return Ok(rows);
        }
        if fields.len() != columns {
            return Err(Fault::at_row(Refusal::BadRecord, row));
        }
        match form.read_row(&fields, &mut last) {
            Ok(read) => rows.push(read)?,
            Err(column) => return Err(Fault::at_field(row, column)),
        }
    }
    if next_record(reader, &mut fields)? {
        return Err(Fault::of(Refusal::TooManyRows));
    }
    Ok(rows)
}
