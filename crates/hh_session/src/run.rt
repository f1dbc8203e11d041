//! The lines of a script, run one after the other.

ghost use Rattle.std.specs.Prelude.{◌≡◌, map, IfErr, IfOk, IsErrOf, OnErr, OnOk};
ghost use Rattle.hh_devices.specs.DeviceChanges.{change};
ghost use Rattle.hh_devices.specs.Devices.{Failed};
ghost use Rattle.hh_desk.specs.Refusals.{CountsUp, HasRefused};
ghost use Rattle.hh_desk.specs.Views.{IsSure};
ghost use Rattle.hh_script.specs.Steps.{step_of};
ghost use Rattle.hh_session.specs.Came.{was_done};
ghost use Rattle.hh_session.specs.Course.{AllDone, EndsEarly, EarlyConserves, RunsScript, ScriptConserves};
ghost use Rattle.hh_session.specs.steps.Course.{RunsStep, StopsStep};

use crate::notes::{Came, Notes};
use crate::reporting::write_report;
use crate::serving::serve_connections;
use crate::tell::tell;
use hh_desk::{Office, Tables, load_file, make_run, reached_conserve};
use hh_devices::{DeviceFailed, Sink};
use hh_host::Host;
use hh_script::ScriptLine;
use std::alloc::Global;

/// Why the lines of a script are not run to their end.
#[derive(Clone, Copy, Debug, PartialEq, Eq)]
pub enum LinesStop {
    /// The output failed or took nothing, and a beginning of the text was written.
    Output,
    /// This line, numbered from 1, was refused or met a fault, and the lines are strict.
    Line { number: usize },
}

impl From<DeviceFailed> for LinesStop {
    ghost use Rattle.hh_session.specs.declared.run.LinesStop.TheVariants.{Output};

    ghost from_gives = { λ _ stop. stop ≡ Output };

    fn from(_failed: DeviceFailed) -> LinesStop {
        LinesStop::Output
    }
}

/// Runs the lines of a script over an office, one after the other, and writes what comes of each (profile):
/// `applied=N late=M`; `run DATE KIND periods N accounts N residual T postings N`; a report; `listening
/// 127.0.0.1:PORT`, before connections are served; a refusal's text; `fault file` if the file cannot be
/// read; `fault socket` if the port cannot be listened on. `notes` hears what came of a line once it is
/// written. If `strict`, the run stops after the first line that is refused or meets a fault.
///
/// # Errors
///
/// `Output`: the output failed or took nothing in this call. Only the first of the lines were run, and a
/// beginning of what they write was written. `Line`: a strict run stopped at this line. The lines up to it
/// were run, all before it were done, and what they write was written.
pub fn run_lines<T: Tables, H: Host, N: Notes, O: Sink>(
    alloc: Global,
    office: &mut Office<'_, T>,
    host: &H,
    lines: &[ScriptLine<'_>],
    strict: bool,
    notes: &mut N,
    out: &mut O,
) -> Result<(), LinesStop>
    ensures done { IsSure T.is_open office.new
        → OnOk result (RunsScript (H.view host.now)
        (HasRefused T.refusals office.old office.new) office.old.seen office.new.seen
        (change O.taken O.failures out.old out.new) (AllDone strict) (map step_of lines.now)) }
    ensures well { OnOk result (O.failures out.new ≡ O.failures out.old) }
    ensures cut { IsSure T.is_open office.new
        → IfErr result (EndsEarly (H.view host.now)
        (HasRefused T.refusals office.old office.new) office.old.seen office.new.seen
        (change O.taken O.failures out.old out.new) strict (map step_of lines.now)) }
    ensures sums { IsSure T.is_open office.new
        → OnOk result (ScriptConserves (H.view host.now)
        (HasRefused T.refusals office.old office.new) office.old.seen office.new.seen
        (AllDone strict) (map step_of lines.now)) }
    ensures sums_cut { IsSure T.is_open office.new
        → IfErr result (EarlyConserves (H.view host.now)
        (HasRefused T.refusals office.old office.new) office.old.seen office.new.seen
        strict (map step_of lines.now)) }
    ensures failed { IsErrOf result LinesStop.Output
        → Failed (O.failures out.old) (O.failures out.new) }
    ensures refusals_up { IsSure T.is_open office.new → CountsUp T.refusals office.old office.new }
    ensures sure { IsSure T.is_open office.new → IsSure T.is_open office.old }
{
    // Does nothing, but carries a law for the proof: the tables of the machine's states add up.
    reached_conserve();
    for (index, line) in lines.iter().enumerate() {
        let number = index + 1;
        let came = run_line(alloc, office, host, line, out)?;
        notes.hear(alloc, office, host, number, line, came);
        if strict && !came.was_done() {
            return Err(LinesStop::Line { number });
        }
    }
    Ok(())
}

/// Runs a line of a script over an office, writes what comes of it, and answers it.
fn run_line<T: Tables, H: Host, O: Sink>(
    alloc: Global,
    office: &mut Office<'_, T>,
    host: &H,
    line: &ScriptLine<'_>,
    out: &mut O,
) -> Result<Came, DeviceFailed>
    ensures done { IsSure T.is_open office.new
        → IfOk result (λ came. RunsStep (H.view host.now)
        (HasRefused T.refusals office.old office.new) office.old.seen office.new.seen
        (change O.taken O.failures out.old out.new) (step_of line.now) (was_done came)) }
    ensures well { OnOk result (O.failures out.new ≡ O.failures out.old) }
    ensures cut { IsSure T.is_open office.new
        → OnErr result (StopsStep (H.view host.now)
        (HasRefused T.refusals office.old office.new) office.old.seen office.new.seen
        (change O.taken O.failures out.old out.new) (step_of line.now)) }
    ensures failed { OnErr result (Failed (O.failures out.old) (O.failures out.new)) }
    ensures refusals_up { IsSure T.is_open office.new → CountsUp T.refusals office.old office.new }
    ensures sure { IsSure T.is_open office.new → IsSure T.is_open office.old }
{
    match line {
        ScriptLine::Load(load) => {
            let told = load_file(alloc, office, host, load);
            tell(alloc, &told, out)
        }
        ScriptLine::Run(run) => {
            let told = make_run(alloc, office, run);
            tell(alloc, &told, out)
        }
        ScriptLine::Report(report) => write_report(alloc, office, report, out),
        ScriptLine::Serve(serve) => serve_connections(alloc, office, host, serve, out),
    }
}
