//! What is asked of the office: the files of two parties that trade in the first period of a day, and the
//! run of the day. Nothing happens in the other periods.

use hh_names::{FileName, OperatorKey};
use hh_office::Office;
use hh_requests::{Action, Bytes, Request, Upload};
use hh_rows::{FileBody, FileKind, LeadMinutes, Settings};
use hh_runs::{RunKey, RunKind};
use hh_store::Tables;
use hh_time::SettlementDate;
use std::alloc::{AllocError, Global};

/// The operator's key.
pub const OPERATOR: &[u8] = b"op-settle001";

/// When files come, 2024-06-29T22:26:40Z.
pub const LOADED_AT: i64 = 1_719_700_000;

/// When the run is ordered, 2024-07-02T23:00:00Z.
const ORDERED_AT: i64 = 1_719_961_200;

/// The file of the parties.
pub const PARTIES: &str =
    "party,from,to,key\nGENCO,2024-01-01,,genco0001\nSUPCO,2024-01-01,,supco0001\n";

/// A file: its kind, and its lines for the first period.
type File = (FileKind, &'static str);

/// The files, in their order.
const FILES: [File; 5] = [
    (FileKind::Parties, PARTIES),
    (
        FileKind::Units,
        "unit,party,side,interconnector,from,to\nG1,GENCO,P,no,2024-01-01,\nS1,SUPCO,C,no,2024-01-01,\n",
    ),
    (
        FileKind::Contracts,
        "reference,seller,buyer,date,period,mwh\nC1,GENCO-P,SUPCO-C,2024-07-01,1,99.000\n",
    ),
    (
        FileKind::Meters,
        "unit,date,period,metered_mwh,tlm,balancing_mwh\n\
            G1,2024-07-01,1,100.000,0.9950000,0\nS1,2024-07-01,1,-98.000,1.0050000,0\n",
    ),
    (
        FileKind::Prices,
        "date,period,price\n2024-07-01,1,50.00000\n",
    ),
];

/// The settings of the office.
pub fn settings() -> Option<Settings> {
    Some(Settings {
        lead_minutes: LeadMinutes::new(60)?,
        operator_key: OperatorKey::read(OPERATOR)?,
    })
}

/// The run of the day.
pub fn run() -> Option<RunKey> {
    Some(RunKey {
        date: SettlementDate::read(b"2024-07-01")?,
        kind: RunKind::SF,
    })
}

/// A request of the operator.
pub fn asked(alloc: Global, action: Action) -> Result<Request, AllocError> {
    let key = Bytes::new(OPERATOR.to_vec(alloc)?);
    Ok(Request { key, action })
}

/// The request that a file be loaded. Files of different kinds may have one name.
pub fn load(alloc: Global, kind: FileKind, text: String) -> Option<Request> {
    let name = FileName::read(b"f1.csv")?;
    let body = FileBody::new(alloc, text.into_bytes()).ok()?;
    asked(alloc, Action::Load(Upload { kind, name, body })).ok()
}

/// Asks an office to load all files and to make the run.
pub fn ask_all<T: Tables>(alloc: Global, office: &mut Office<'_, T>) -> Option<()> {
    load_first(alloc, office, FILES.len())?;
    let request = asked(alloc, Action::Run(run()?)).ok()?;
    drop(office.handle(ORDERED_AT, &request));
    Some(())
}

/// Asks an office to load the first files. The first two register the parties and their units.
pub fn load_first<T: Tables>(
    alloc: Global,
    office: &mut Office<'_, T>,
    count: usize,
) -> Option<()> {
    for (kind, text) in FILES.iter().take(count) {
        let request = load(alloc, *kind, whole(alloc, *kind, text).ok()?)?;
        drop(office.handle(LOADED_AT, &request));
    }
    Some(())
}

/// A file's lines with readings or prices of 0 for the other periods, if it has readings or prices.
fn whole(alloc: Global, kind: FileKind, text: &str) -> Result<String, AllocError> {
    let mut text = text.to_string(alloc)?;
    for period in 2..=48u8 {
        push_idle(&mut text, kind, period)?;
    }
    Ok(text)
}

/// Appends readings or prices of 0 for a period.
fn push_idle(text: &mut String, kind: FileKind, period: u8) -> Result<(), AllocError> {
    match kind {
        FileKind::Meters => write!(
            text,
            "G1,2024-07-01,{period},0,1,0\nS1,2024-07-01,{period},0,1,0\n"
        ),
        FileKind::Prices => write!(text, "2024-07-01,{period},0\n"),
        _ => Ok(()),
    }
}
