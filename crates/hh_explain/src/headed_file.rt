//! Files with a header: why the text of one isn't read.

use crate::columns::{Header, KEY, form_of};
use crate::meanings::{at_path, too_large};
use crate::records::{Found, record_at};
use hh_names::{AccessKey, Fault, Refusal};
use hh_texts::{MOST_BYTES, MOST_ROWS};
use hh_word_values::CutText;
use std::alloc::{AllocError, Global};
use std::fmt;

/// A file whose first record should be a header.
#[derive(Clone, Copy)]
pub(crate) struct HeadedFile<'a> {
    pub(crate) path: &'a str,
    pub(crate) body: &'a [u8],
    /// The names of its columns.
    pub(crate) header: &'static [&'static str],
}

/// A row of a file.
#[derive(Drop)]
pub(crate) struct FoundRow<'a> {
    path: &'a str,
    /// Its number, from 1 without the header.
    number: u32,
    pub(crate) found: Found<'a>,
}

/// The path, the row's number and its line.
impl fmt::Display for FoundRow<'_> {
    fn fmt<W: fmt::Write>(&self, f: &mut fmt::Formatter<W>) -> fmt::Result {
        let (path, number, line) = (self.path, self.number, self.found.line);
        write!(f, "{path}: row {number} is line {line} of the file")
    }
}

impl<'a> HeadedFile<'a> {
    /// The row that a refusal names, if the file has it.
    pub(crate) fn row_of(
        &self,
        alloc: Global,
        fault: &Fault,
    ) -> Result<Option<FoundRow<'a>>, AllocError> {
        let number = match (fault.refusal, fault.row) {
            (Refusal::TooManyRows, _) => MOST_ROWS + 1,
            (_, Some(row)) => row,
            (_, None) => return Ok(None),
        };
        let path = self.path;
        match record_at(alloc, self.body, number)? {
            Some(found) => Ok(Some(FoundRow {
                path,
                number,
                found,
            })),
            None => Ok(None),
        }
    }

    /// Why a file isn't read, or otherwise what the refusal means.
    pub(crate) fn unread(&self, alloc: Global, fault: &Fault) -> Result<String, AllocError> {
        match fault.refusal {
            Refusal::FileTooLarge => too_large(alloc, self.path, MOST_BYTES),
            Refusal::BadHeader => self.bad_header(alloc),
            Refusal::TooManyRows | Refusal::BadRecord | Refusal::BadField => {
                match self.row_of(alloc, fault)? {
                    Some(row) => self.bad_row(alloc, &row, fault),
                    None => at_path(alloc, self.path, fault),
                }
            }
            _ => at_path(alloc, self.path, fault),
        }
    }

    /// The text of a record, up to a party's key.
    pub(crate) fn shown(&self, found: &Found<'_>) -> CutText {
        let key = found.field(3);
        if self.header.get(3) == Some(&KEY) && AccessKey::read(key).is_some() {
            CutText::beginning(before(found.text, key))
        } else {
            CutText::of(found.text)
        }
    }

    fn bad_header(&self, alloc: Global) -> Result<String, AllocError> {
        let path = self.path;
        let header = Header(self.header);
        match record_at(alloc, self.body, 0)? {
            Some(found) => {
                let (line, text) = (found.line, self.shown(&found));
                format!(in alloc; "{path}: line {line}, the header, is {text}; expected {header}")
            }
            None => format!(in alloc; "{path}: it has no header; expected {header}"),
        }
    }

    fn bad_row(
        &self,
        alloc: Global,
        row: &FoundRow<'_>,
        fault: &Fault,
    ) -> Result<String, AllocError> {
        match (fault.refusal, fault.column) {
            (Refusal::TooManyRows, _) => {
                format!(in alloc; "{row}; a file has at most {MOST_ROWS} rows")
            }
            (Refusal::BadField, Some(column)) => self.bad_field(alloc, row, column),
            _ => {
                let (count, columns) = (row.found.fields.len(), self.header.len());
                let word = if count == 1 { "field" } else { "fields" };
                format!(in alloc; "{row}; it has {count} {word}, expected {columns}")
            }
        }
    }

    /// Tells which field is wrong. A party's key isn't shown.
    fn bad_field(
        &self,
        alloc: Global,
        row: &FoundRow<'_>,
        column: u32,
    ) -> Result<String, AllocError> {
        let place = column.saturating_sub(1) as usize;
        let name = *self.header.get(place).unwrap_or(&"");
        let field = row.found.field(place);
        let form = form_of(name);
        if name == KEY {
            let size = field.len();
            format!(in alloc;
                "{row}; column {column}, {name}, has the length {size}; expected {form}"
            )
        } else {
            let text = CutText::of(field);
            format!(in alloc; "{row}; column {column}, {name}, is {text}; expected {form}")
        }
    }
}

/// The part of a text before a word, or nothing if it doesn't contain the word.
fn before<'t>(text: &'t [u8], word: &[u8]) -> &'t [u8] {
    for place in 0..text.len() {
        let (front, behind) = text.split_at(place);
        if behind.starts_with(word) {
            return front;
        }
    }
    &[]
}
