//! Why a Settlement Period isn't settled from its inputs.

use crate::columns::PRICE;
use crate::headed_file::HeadedFile;
use crate::meanings::{at_path, refused};
use hh_names::{Fault, Refusal};
use hh_period::{Input, Rejection};
use hh_texts::{Form, PeriodContracts, PeriodMeters};
use hh_word_values::CutText;
use std::alloc::{AllocError, Global};

/// A file from which a period is settled.
#[derive(Clone, Copy, Debug)]
pub struct PeriodText<'a> {
    pub path: &'a str,
    /// Its bytes.
    pub body: &'a [u8],
}

/// What a period is settled from.
#[derive(Clone, Copy, Debug)]
pub struct PeriodInputs<'a> {
    pub meter: PeriodText<'a>,
    pub contracts: PeriodText<'a>,
    /// The word that gives the price.
    pub price: &'a str,
}

impl<'a> PeriodText<'a> {
    /// The file with its header.
    fn headed(&self, header: &'static [&'static str]) -> HeadedFile<'a> {
        HeadedFile {
            path: self.path,
            body: self.body,
            header,
        }
    }
}

/// Why a period isn't settled: the path of the file, then the row that the refusal names and its line, what
/// is written there, and what is wrong with it.
pub fn period_refused(
    alloc: Global,
    inputs: &PeriodInputs<'_>,
    rejection: &Rejection,
) -> Result<String, AllocError> {
    let fault = &rejection.fault;
    match rejection.input {
        Some(Input::Meter) => inputs
            .meter
            .headed(PeriodMeters.header())
            .unread(alloc, fault),
        Some(Input::Contracts) => {
            contracts_refused(
                alloc,
                &inputs.contracts.headed(PeriodContracts.header()),
                fault,
            )
        }
        Some(Input::Price) => {
            let price = CutText::of(inputs.price.as_bytes());
            format!(in alloc; "price {price}; expected {PRICE}")
        }
        None => String::from_str(alloc, refused(fault)),
    }
}

/// Why the file of contracts is refused.
fn contracts_refused(
    alloc: Global,
    file: &HeadedFile<'_>,
    fault: &Fault,
) -> Result<String, AllocError> {
    match fault.refusal {
        Refusal::SameAccount | Refusal::ReferenceMoved => match file.row_of(alloc, fault)? {
            Some(row) => {
                let (text, meaning) = (file.shown(&row.found), refused(fault));
                format!(in alloc; "{row}, {text}; {meaning}")
            }
            None => at_path(alloc, file.path, fault),
        },
        _ => file.unread(alloc, fault),
    }
}
