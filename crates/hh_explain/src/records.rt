//! The records of a file, and where each is.

use csv::{ByteRecord, Reader, ReaderBuilder};
use std::alloc::{AllocError, Global};

/// What a file may begin with before its first record.
const BYTE_ORDER_MARK: &[u8] = b"\xEF\xBB\xBF";

/// A record of a file.
#[derive(Drop)]
pub(crate) struct Found<'a> {
    pub(crate) fields: ByteRecord,
    /// The number of the line in which it begins, from 1.
    pub(crate) line: u64,
    /// Its text in the file, without the line end after it.
    pub(crate) text: &'a [u8],
}

impl Found<'_> {
    /// The field at a place, from 0. It is empty after the last field.
    pub(crate) fn field(&self, place: usize) -> &[u8] {
        self.fields.get(place).unwrap_or(&[])
    }
}

/// The record with this number of records before it, if the file has it. Records are those that `hh_texts`
/// reads.
pub(crate) fn record_at(
    alloc: Global,
    body: &[u8],
    before: u32,
) -> Result<Option<Found<'_>>, AllocError> {
    let mut reader = ReaderBuilder::new()
        .has_headers(false)
        .flexible(true)
        .from_reader(alloc, body);
    let mut fields = ByteRecord::new(alloc);
    for _ in 0..=before {
        if !next_record(&mut reader, &mut fields)? {
            return Ok(None);
        }
    }
    // The reader says where the record before this one ends.
    let past = fields.position().map_or(0, |position| position.byte());
    let end = reader.position().byte();
    let (front, text) = parted(body, past, end);
    Ok(Some(Found {
        fields,
        line: line_behind(front),
        text,
    }))
}

/// Reads the next record into `fields`, and answers whether there was one.
fn next_record(reader: &mut Reader<&[u8]>, fields: &mut ByteRecord) -> Result<bool, AllocError> {
    let Ok(found) = reader.read_byte_record(fields) else {
        return Err(AllocError);
    };
    Ok(found)
}

/// The bytes before a record, and its own. `past` and `end` are places in the file. A byte order mark or
/// line ends may lie between `past` and the record, and a line end between the record and `end`.
fn parted(body: &[u8], past: u64, end: u64) -> (&[u8], &[u8]) {
    let (all, _) = split(body, place_of(end));
    let begin = if past == 0 && all.starts_with(BYTE_ORDER_MARK) {
        BYTE_ORDER_MARK.len()
    } else {
        place_of(past)
    };
    let (_, behind) = split(all, begin);
    let ends = behind.iter().take_while(|byte| is_line_end(**byte)).count();
    let (front, text) = split(all, begin.saturating_add(ends));
    match text {
        [text @ .., b'\n' | b'\r'] => (front, text),
        text => (front, text),
    }
}

fn place_of(place: u64) -> usize {
    usize::try_from(place).unwrap_or(usize::MAX)
}

/// The bytes of a text before a place, and the rest.
fn split(text: &[u8], place: usize) -> (&[u8], &[u8]) {
    text.split_at(place.min(text.len()))
}

fn is_line_end(byte: u8) -> bool {
    byte == b'\n' || byte == b'\r'
}

/// The number of the line, from 1, that begins or goes on after these bytes. LF, CRLF and a lone CR end a
/// line.
fn line_behind(bytes: &[u8]) -> u64 {
    let mut line = 1u64;
    let mut is_behind_cr = false;
    for byte in bytes {
        if *byte == b'\r' || (*byte == b'\n' && !is_behind_cr) {
            line = line.saturating_add(1);
        }
        is_behind_cr = *byte == b'\r';
    }
    line
}
