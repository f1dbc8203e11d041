//! A script in a file, run over a new office.

ghost use Rattle.std.specs.Prelude.{◌≡◌, ◌≤◌, Some, length, map, IfErr, IfOk, OnOk};
ghost use Rattle.hh_devices.specs.DeviceChanges.{change};
ghost use Rattle.hh_script.specs.Steps.{step_of};
ghost use Rattle.hh_session.specs.Course.{AllDone};
ghost use Rattle.hh_session.specs.Script.{IsUnread, NewOfficeEnds, NewOfficeWrites, StopsAt, WritesScript, most_script_bytes};
ghost use Rattle.hh_session.specs.ScriptStops.{IsUnrun};

use crate::notes::Notes;
use crate::run::{LinesStop, run_lines};
use hh_desk::{Office, reached_conserve};
use hh_devices::Sink;
use hh_host::Host;
use hh_inputs::InputFault;
use hh_names::{Fault, Refusal};
use hh_plain_tables::PlainTables;
use hh_rows::Settings;
use hh_script::{BadWord, ScriptFault, ScriptLine, read_script};
use hh_time::london;
use std::alloc::Global;

/// The most bytes that a script may have (profile).
pub const MOST_SCRIPT_BYTES: usize = 16_777_216;

/// Why a script is not run, or not to its end.
#[derive(Clone, Copy, Debug, PartialEq, Eq)]
pub enum ScriptStop {
    /// Its file cannot be read. Nothing was run.
    File,
    /// The first line that is off its form, numbered from 1, and the first of its words that is. Nothing
    /// was run.
    BadLine { line: usize, word: BadWord },
    /// It has too many bytes (10), or memory was refused (90). Nothing was run.
    Refused(Fault),
    /// Its lines were not run to their end.
    Early(LinesStop),
}

impl From<InputFault> for ScriptStop {
    ghost use Rattle.std.specs.Prelude.{◌≡◌};
    ghost use Rattle.hh_session.specs.ScriptStops.{unread_stop};

    ghost from_gives = { λ fault stop. stop ≡ unread_stop fault };

    fn from(fault: InputFault) -> ScriptStop {
        match fault {
            InputFault::Unreadable => ScriptStop::File,
            InputFault::Memory => ScriptStop::Refused(Fault::of(Refusal::Memory)),
        }
    }
}

impl From<ScriptFault> for ScriptStop {
    ghost use Rattle.std.specs.Prelude.{◌≡◌};
    ghost use Rattle.hh_session.specs.ScriptStops.{fault_stop};

    ghost from_gives = { λ fault stop. stop ≡ fault_stop fault };

    fn from(fault: ScriptFault) -> ScriptStop {
        match fault {
            ScriptFault::BadLine { line, word } => ScriptStop::BadLine { line, word },
            ScriptFault::Memory => ScriptStop::Refused(Fault::of(Refusal::Memory)),
        }
    }
}

impl From<LinesStop> for ScriptStop {
    ghost use Rattle.std.specs.Prelude.{◌≡◌};
    ghost use Rattle.hh_session.specs.declared.script.ScriptStop.TheVariants.{Early};

    ghost from_gives = { λ why stop. stop ≡ Early why };

    fn from(why: LinesStop) -> ScriptStop {
        ScriptStop::Early(why)
    }
}

/// Runs the script in a file over a new office with these settings, and writes what comes of each of its
/// lines (profile), as `run_lines` does. The office's tables are in memory. All lines are read before any
/// is run.
///
/// # Errors
///
/// `File`, `BadLine` and `Refused`, with nothing written. `Early` as for `run_lines`.
pub fn run_script<H: Host, N: Notes, O: Sink>(
    alloc: Global,
    settings: Settings,
    host: &H,
    path: &str,
    strict: bool,
    notes: &mut N,
    out: &mut O,
) -> Result<(), ScriptStop>
    ensures done { OnOk result (WritesScript (H.view host.now) path.now settings
        (change O.taken O.failures out.old out.new) strict) }
    ensures well { OnOk result (O.failures out.new ≡ O.failures out.old) }
    ensures stopped { IfErr result (StopsAt (H.view host.now) path.now settings
        (change O.taken O.failures out.old out.new) strict) }
    ensures untouched { IfErr result (λ stop. IsUnrun stop → out.new ≡ out.old) }
{
    let bytes = read_script_file(alloc, host, path)?;
    let lines = read_script(alloc, &bytes)?;
    run_new_office(alloc, settings, host, &lines, strict, notes, out)?;
    Ok(())
}

/// The bytes of a script's file, if it is not too large.
///
/// # Errors
///
/// `File`: it cannot be read. `Refused`: it has too many bytes (10), or memory was refused (90).
pub fn read_script_file<H: Host>(alloc: Global, host: &H, path: &str) -> Result<Vec<u8>, ScriptStop>
    ensures whole { IfOk result (λ bytes. (H.view host.now).reads path.now (Some bytes.items)) }
    ensures small { IfOk result (λ bytes. length bytes.items ≤ most_script_bytes) }
    ensures unread { IfErr result (IsUnread (H.view host.now) path.now) }
    ensures unrun { IfErr result IsUnrun }
{
    let bytes = host.read(alloc, path, MOST_SCRIPT_BYTES + 1)?;
    if bytes.len() > MOST_SCRIPT_BYTES {
        return Err(ScriptStop::Refused(Fault::of(Refusal::FileTooLarge)));
    }
    Ok(bytes)
}

/// Runs lines over a new office with tables in memory, as `run_lines` does.
fn run_new_office<H: Host, N: Notes, O: Sink>(
    alloc: Global,
    settings: Settings,
    host: &H,
    lines: &[ScriptLine<'_>],
    strict: bool,
    notes: &mut N,
    out: &mut O,
) -> Result<(), LinesStop>
    ensures done { OnOk result (NewOfficeWrites (H.view host.now) settings
        (change O.taken O.failures out.old out.new) (AllDone strict)
        (map step_of lines.now)) }
    ensures well { OnOk result (O.failures out.new ≡ O.failures out.old) }
    ensures stopped { IfErr result (NewOfficeEnds (H.view host.now) settings
        (change O.taken O.failures out.old out.new) strict
        (map step_of lines.now)) }
{
    // Do nothing, but carry laws for the proof: the settings are within their ranges, and the tables of the
    // machine's states add up.
    settings.are_settings();
    reached_conserve();
    let mut office = Office::new(alloc, PlainTables::new(alloc, settings), london());
    run_lines(alloc, &mut office, host, lines, strict, notes, out)
}
