//! Runs, and the reports that are asked for.

ghost use Rattle.std.specs.Prelude.{◌≡◌};
ghost use Rattle.hh_word_values.specs.Reports.{form_value, run_form_value, run_key_value};

use hh_requests::{Report, RunKey, RunKind};
use hh_time::SettlementDate;

/// The run that a date and a kind name, if each of them can be read (profile).
pub fn read_run_key(date: &[u8], kind: &[u8]) -> Option<RunKey>
    ensures { result ≡ run_key_value date.now kind.now }
{
    Some(RunKey {
        date: SettlementDate::read(date)?,
        kind: RunKind::read(kind)?,
    })
}

/// The report that a form asks for (profile): `day` and `csv` about the run that is named, `balances` if
/// none is.
pub fn read_report(form: &[u8], run: Option<RunKey>) -> Option<Report>
    ensures { result ≡ form_value form.now run }
{
    match run {
        Some(run) => read_report_of(form, run),
        None if form == b"balances".as_slice() => Some(Report::Balances),
        None => None,
    }
}

/// The report about a run that a form asks for.
fn read_report_of(form: &[u8], run: RunKey) -> Option<Report>
    ensures { result ≡ run_form_value form.now run }
{
    match form {
        b"day" => Some(Report::Day(run)),
        b"csv" => Some(Report::Results(run)),
        _ => None,
    }
}
