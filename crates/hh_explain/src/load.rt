//! Why a file of rows isn't loaded.

use crate::headed_file::HeadedFile;
use crate::meanings::at_path;
use crate::records::Found;
use crate::wrong_rows::WrongRow;
use hh_names::{Fault, Refusal};
use hh_rows::{FileKind, Row};
use hh_texts::{Form, LastDate, forms_of};
use std::alloc::{AllocError, Global};

/// A file of rows that was to be loaded.
#[derive(Clone, Copy, Debug)]
pub struct RowsFile<'a> {
    pub kind: FileKind,
    pub path: &'a str,
    /// Its bytes.
    pub body: &'a [u8],
}

impl<'a> RowsFile<'a> {
    /// The file with the header that it usually has.
    fn headed(&self) -> HeadedFile<'a> {
        HeadedFile {
            path: self.path,
            body: self.body,
            header: match forms_of(self.kind).first() {
                Some(form) => form.header(),
                None => &[],
            },
        }
    }
}

/// Why a file of rows isn't loaded: its path, then the row that the refusal names and its line, what is
/// written there, and what is wrong with it. The key of a party isn't shown.
pub fn load_refused(
    alloc: Global,
    file: &RowsFile<'_>,
    fault: &Fault,
) -> Result<String, AllocError> {
    match fault.refusal {
        Refusal::FileChanged => file_changed(alloc, file),
        Refusal::UnknownParty
        | Refusal::UnknownUnit
        | Refusal::NotEffective
        | Refusal::NoSuchPeriod
        | Refusal::SameAccount
        | Refusal::ReferenceMoved
        | Refusal::OwnLead
        | Refusal::OverHundred
        | Refusal::ShrinksRange
        | Refusal::UnitMoved
        | Refusal::LeadIsSubsidiary
        | Refusal::TooMany => row_refused(alloc, file, fault),
        _ => file.headed().unread(alloc, fault),
    }
}

/// Tells that the name of a file is used already.
fn file_changed(alloc: Global, file: &RowsFile<'_>) -> Result<String, AllocError> {
    let (path, kind) = (file.path, file.kind.word());
    let name = path.rsplit('/').next().unwrap_or(path);
    format!(in alloc;
        "{path}: a file of {kind} named {name} was accepted with other bytes; \
         give this one another name"
    )
}

/// Why the row that a refusal names isn't accepted.
fn row_refused(alloc: Global, file: &RowsFile<'_>, fault: &Fault) -> Result<String, AllocError> {
    let headed = file.headed();
    match headed.row_of(alloc, fault)? {
        Some(found) => {
            let wrong = WrongRow {
                row: row_in(file.kind, &found.found),
                fault: *fault,
            };
            let text = headed.shown(&found.found);
            format!(in alloc; "{found}, {text}; {wrong}")
        }
        None => at_path(alloc, file.path, fault),
    }
}

/// The row that a record of a kind reads as, if it does.
fn row_in(kind: FileKind, found: &Found<'_>) -> Option<Row> {
    let form = forms_of(kind).first()?;
    if found.fields.len() == form.header().len() {
        form.read_row(&found.fields, &mut LastDate::new()).ok()
    } else {
        None
    }
}
