//! One line of words, from reading it to the exit status.

ghost use Rattle.std.specs.Prelude.{◌≡◌, ◌≢◌, ◌≤◌, ◌<◌, ◌⊎◌, Bool, IfErr, OnOk, List, false, map, string_bytes, true};
ghost use Rattle.clap.specs.Words.{Text};
ghost use Rattle.hh_devices.specs.DeviceChanges.{change};
ghost use Rattle.hh_rows.specs.RowKinds.{most_bytes};
ghost use Rattle.hh_host.specs.Views.{any_view};
ghost use Rattle.hh_kept_office.specs.Places.{any_places, places_of, shown_by};
ghost use Rattle.hh_words.specs.Lines.{line_of};
ghost use Rattle.hh_settle.specs.Calls.{IsBeforeWords, IsDone, IsStopped, StopsVersion, TellsVersion};
ghost use Rattle.hh_settle.specs.Stops.{AreWrong, Does, DoesPeriod, DoesWords, IsTold, Stops, StopsLine, StopsPeriod, Tells, UnlessExplained, not_text_line, stop_status};
ghost use Rattle.hh_settle.specs.steps.Stops.{IsToldBadLine, IsToldOne, StopsAnd};

use crate::database::on_database;
use crate::explaining::{Explaining, explain_done, explain_unreadable, of_stop, tell};
use crate::no_words::NoWords;
use crate::stop::Stop;
use crate::telling::{stopped, wrong};
use hh_devices::{DeviceFailed, Sink, write_whole};
use hh_host::{Host, RuntimeHost};
use hh_kept_office::{DatabaseHost, Machine, NoNotes, Notes, Rising, run_script};
use hh_period::period;
use hh_texts::MOST_BYTES;
use hh_words::{
    Command, Options, PeriodWords, VERSION, WordsFault, asks_version, file_with_key, key_in_file,
    read_words, take_options, with_key,
};
use sqlite::Connection;
use std::alloc::{AllocError, Global};
use std::env;
use std::rt::Env;

/// The exit status of a command that was done.
const DONE: u8 = 0;

/// What is told about words that are not text.
const NOT_TEXT: &str = "words that are not text (UTF-8)\n";

/// The most bytes that are read of a file: one more than is allowed. So a file that is too large is
/// noticed, and reading ends even if the file is endless.
const MOST_READ: usize = MOST_BYTES + 1;

/// The most bytes that are read of a key file.
const MOST_KEY_BYTES: usize = 4_096;

/// Runs the line of words that the program was called with, as `command` does (profile). No contract knows
/// which words these are. Options are removed first. If a key file is named, its key takes the place of its
/// name. `--version` alone is answered with the program's version. Words that are not text are reported
/// with status 2.
pub fn run<O: Sink, E: Sink>(rt: &HostRuntime, out: &mut O, err: &mut E) -> u8
    ensures status { result ≤ 2 }

    // Some words formed a line, and it was done; or the version was written.
    ensures done { result ≡ 0 → IsDone (change O.taken O.failures out.old out.new)
        (change E.taken E.failures err.old err.new) }
    ensures well { result ≡ 0 → O.failures out.new ≡ O.failures out.old }

    // Some words formed a line and it stopped with status 1; or the call stopped before its words were a
    // line.
    ensures stopped { result ≡ 1 → IsStopped (change O.taken O.failures out.old out.new)
        (change E.taken E.failures err.old err.new) }

    // Some words formed no line; or a line of their script is off its form; or words are not text.
    ensures told { let told = change E.taken E.failures err.old err.new in
        result ≡ 2 → ((words : List Text) × (explain : Bool) × AreWrong any_view explain words told)
        ⊎ IsTold told not_text_line }
    ensures untouched { result ≡ 2 → out.new ≡ out.old }
{
    match arguments(rt) {
        Ok(words) => run_words(rt, &words, out, err),
        Err(NoWords::NotText) => wrong(err, NOT_TEXT),
        Err(NoWords::Memory) => stopped(rt.alloc(), err, Stop::no_memory()),
    }
}

/// The words that the program was called with, beginning with its own name.
fn arguments<R: Env + AllocGlobal>(rt: &R) -> Result<Vec<String>, NoWords> {
    let words = env::args(rt)?.collect(rt.alloc())?;
    Ok(words)
}

/// Writes the program's version, and tells it if the output fails.
fn tell_version<O: Sink, E: Sink>(alloc: Global, out: &mut O, err: &mut E) -> u8
    ensures status { result ≤ 1 }
    ensures done { result ≡ 0 → TellsVersion (change O.taken O.failures out.old out.new) }
    ensures well { result ≡ 0 → O.failures out.new ≡ O.failures out.old }
    ensures silent { result ≡ 0 → err.new ≡ err.old }
    ensures stopped { result ≡ 1 → StopsVersion (change O.taken O.failures out.old out.new)
        (change E.taken E.failures err.old err.new) }
{
    match write_whole(out, VERSION.as_bytes()) {
        Ok(()) => DONE,
        Err(DeviceFailed) => stopped(alloc, err, Stop::Output),
    }
}

/// Runs a line of words that may begin with options. `--version` alone is answered with the version.
fn run_words<O: Sink, E: Sink>(rt: &HostRuntime, words: &[String], out: &mut O, err: &mut E) -> u8
    ensures status { result ≤ 2 }
    ensures done { result ≡ 0 → IsDone (change O.taken O.failures out.old out.new)
        (change E.taken E.failures err.old err.new) }
    ensures well { result ≡ 0 → O.failures out.new ≡ O.failures out.old }
    ensures stopped { result ≡ 1 → IsStopped (change O.taken O.failures out.old out.new)
        (change E.taken E.failures err.old err.new) }
    ensures told { let told = change E.taken E.failures err.old err.new in
        result ≡ 2 → (words : List Text) × (explain : Bool)
        × AreWrong any_view explain words told }
    ensures untouched { result ≡ 2 → out.new ≡ out.old }
{
    if asks_version(words) {
        return tell_version(rt.alloc(), out, err);
    }
    match take_options(rt.alloc(), words) {
        Ok((options, words)) => run_keyed(rt, &words, options, out, err),
        Err(AllocError) => stopped(rt.alloc(), err, Stop::no_memory()),
    }
}

/// Runs a line of words in which a file may be named that holds the key.
fn run_keyed<O: Sink, E: Sink>(
    rt: &HostRuntime,
    words: &[String],
    options: Options,
    out: &mut O,
    err: &mut E,
) -> u8
    ensures status { result ≤ 2 }
    ensures done { result ≡ 0 → IsDone (change O.taken O.failures out.old out.new)
        (change E.taken E.failures err.old err.new) }
    ensures well { result ≡ 0 → O.failures out.new ≡ O.failures out.old }
    ensures stopped { result ≡ 1 → IsStopped (change O.taken O.failures out.old out.new)
        (change E.taken E.failures err.old err.new) }
    ensures told { let told = change E.taken E.failures err.old err.new in
        result ≡ 2 → (words : List Text) × (explain : Bool)
        × AreWrong any_view explain words told }
    ensures untouched { result ≡ 2 → out.new ≡ out.old }
{
    match file_with_key(words) {
        Some(path) => match words_with_key(rt, words, path) {
            Ok(words) => command(rt, &words, options, out, err),
            Err(stop) => stop_at_key(rt, path, options.explain, stop, err),
        },
        None => command(rt, words, options, out, err),
    }
}

/// The words, with the key that the file at `path` holds in the place of the path.
fn words_with_key(rt: &HostRuntime, words: &[String], path: &str) -> Result<Vec<String>, Stop>
    ensures { IfErr result IsBeforeWords }
{
    let alloc = rt.alloc();
    let bytes = RuntimeHost(rt).read(alloc, path, MOST_KEY_BYTES)?;
    Ok(with_key(alloc, words, key_in_file(&bytes))?)
}

/// Tells why a key file gives no key.
fn stop_at_key<E: Sink>(rt: &HostRuntime, path: &str, explain: bool, stop: Stop, err: &mut E) -> u8
    requires { IsBeforeWords stop }
    ensures status { result ≡ 1 }
    ensures told { UnlessExplained explain
        (Tells (change E.taken E.failures err.old err.new) stop) }
{
    let is_file = stop == Stop::File;
    let status = stopped(rt.alloc(), err, stop);
    if explain && is_file {
        explain_unreadable(rt.alloc(), &RuntimeHost(rt), path, err);
    }
    status
}

/// Runs one line of words on this machine, as `command_on` does. No contract knows anything about the
/// files, the ports and the clock of a machine.
pub fn command<O: Sink, E: Sink>(
    rt: &HostRuntime,
    words: &[String],
    options: Options,
    out: &mut O,
    err: &mut E,
) -> u8
    ensures status { result ≤ 2 }
    ensures done { result ≡ 0 → DoesWords any_view any_places options.strict
        (map string_bytes words.now) (change O.taken O.failures out.old out.new) }
    ensures well { result ≡ 0 → O.failures out.new ≡ O.failures out.old }
    ensures silent { result ≡ 0 → UnlessExplained options.explain (err.new ≡ err.old) }
    ensures stopped { result ≡ 1 → Stops any_view any_places options.strict options.explain
        (map string_bytes words.now)
        (change O.taken O.failures out.old out.new) (change E.taken E.failures err.old err.new) }
    ensures wrong { result ≡ 2 → AreWrong any_view options.explain (map string_bytes words.now)
        (change E.taken E.failures err.old err.new) }
    ensures untouched { result ≡ 2 → out.new ≡ out.old }
{
    let machine = Machine {
        runtime: rt,
        databases: rt,
    };
    command_anywhere(rt.alloc(), &machine, words, options, out, err)
}

/// The same as `command_on`, but its contract says nothing about the paths of databases.
fn command_anywhere<
    S: Rising,
    D: DatabaseHost<Connection = Connection<S>> + Copy,
    O: Sink,
    E: Sink,
>(alloc: Global, host: &D, words: &[String], options: Options, out: &mut O, err: &mut E) -> u8
    ensures status { result ≤ 2 }
    ensures done { result ≡ 0 → DoesWords (D.view host.now) any_places options.strict
        (map string_bytes words.now) (change O.taken O.failures out.old out.new) }
    ensures well { result ≡ 0 → O.failures out.new ≡ O.failures out.old }
    ensures silent { result ≡ 0 → UnlessExplained options.explain (err.new ≡ err.old) }
    ensures stopped { result ≡ 1 → Stops (D.view host.now) any_places options.strict
        options.explain (map string_bytes words.now) (change O.taken O.failures out.old out.new)
        (change E.taken E.failures err.old err.new) }
    ensures wrong { result ≡ 2 → AreWrong (D.view host.now) options.explain
        (map string_bytes words.now) (change E.taken E.failures err.old err.new) }
    ensures untouched { result ≡ 2 → out.new ≡ out.old }
{
    command_on(alloc, host, words, options, out, err)
}

/// Runs one line of words, which begins with the program's own name, over a host and two sinks, and answers
/// the exit status (profile). Status 0: done. Status 1: refused, or a fault of a path, a file, a port, the
/// clock or the output, or a strict script that one of its lines stopped. Status 2: wrong words, a line of
/// a script off its form, or a call for help. The reason is told on `err`; if `err` fails, only the status
/// tells it. If explanations are asked for, each refusal, each fault and the late rows of a file are also
/// explained on `err`. What is written to `out` and the status are the same with explanations as without.
pub fn command_on<S: Rising, D: DatabaseHost<Connection = Connection<S>> + Copy, O: Sink, E: Sink>(
    alloc: Global,
    host: &D,
    words: &[String],
    options: Options,
    out: &mut O,
    err: &mut E,
) -> u8
    ensures status { result ≤ 2 }

    // What the words ask for was done, and nothing is told on `err`.
    ensures done { result ≡ 0 → DoesWords (D.view host.now)
        (places_of D.finds D.refuses D.opens D.closes D.discards (shown_by S.Store) host.now)
        options.strict (map string_bytes words.now)
        (change O.taken O.failures out.old out.new) }
    ensures well { result ≡ 0 → O.failures out.new ≡ O.failures out.old }
    ensures silent { result ≡ 0 → UnlessExplained options.explain (err.new ≡ err.old) }

    // The words, the files and `out` determine why it stopped. The reason was told, unless `err` failed.
    ensures stopped { result ≡ 1 → Stops (D.view host.now)
        (places_of D.finds D.refuses D.opens D.closes D.discards (shown_by S.Store) host.now)
        options.strict options.explain (map string_bytes words.now)
        (change O.taken O.failures out.old out.new) (change E.taken E.failures err.old err.new) }

    // It was told that the words form no line, or which line of the script is off its form, unless `err`
    // failed.
    ensures wrong { result ≡ 2 → AreWrong (D.view host.now) options.explain
        (map string_bytes words.now) (change E.taken E.failures err.old err.new) }
    ensures untouched { result ≡ 2 → out.new ≡ out.old }
{
    match read_words(alloc, words) {
        Ok(command) => run_command(alloc, host, &command, options, out, err),
        Err(WordsFault::Wrong(text)) => wrong(err, text.as_str()),
        Err(WordsFault::Memory) => stopped(alloc, err, Stop::no_memory()),
    }
}

/// Does what a line of words asks for, with explanations or without. If it stops, the reason is told.
fn run_command<S: Rising, D: DatabaseHost<Connection = Connection<S>> + Copy, O: Sink, E: Sink>(
    alloc: Global,
    host: &D,
    command: &Command<'_>,
    options: Options,
    out: &mut O,
    err: &mut E,
) -> u8
    ensures status { result ≤ 2 }
    ensures done { result ≡ 0 → Does (D.view host.now)
        (places_of D.finds D.refuses D.opens D.closes D.discards (shown_by S.Store) host.now)
        options.strict (line_of command.now) (change O.taken O.failures out.old out.new) }
    ensures well { result ≡ 0 → O.failures out.new ≡ O.failures out.old }
    ensures silent { result ≡ 0 → UnlessExplained options.explain (err.new ≡ err.old) }
    ensures stopped { result ≡ 1 → StopsAnd (D.view host.now)
        (places_of D.finds D.refuses D.opens D.closes D.discards (shown_by S.Store) host.now)
        options.strict (line_of command.now) (change O.taken O.failures out.old out.new)
        (IsToldOne options.explain (change E.taken E.failures err.old err.new)) }
    ensures bad_line { result ≡ 2 → StopsAnd (D.view host.now)
        (places_of D.finds D.refuses D.opens D.closes D.discards (shown_by S.Store) host.now)
        options.strict (line_of command.now) (change O.taken O.failures out.old out.new)
        (IsToldBadLine options.explain (change E.taken E.failures err.old err.new)) }
    ensures untouched { result ≡ 2 → out.new ≡ out.old }
{
    if options.explain {
        run_explained(alloc, host, command, options.strict, out, err)
    } else {
        run_plainly(alloc, host, command, options.strict, out, err)
    }
}

/// Does what a line of words asks for. If it stops, the reason is told.
fn run_plainly<S: Rising, D: DatabaseHost<Connection = Connection<S>>, O: Sink, E: Sink>(
    alloc: Global,
    host: &D,
    command: &Command<'_>,
    strict: bool,
    out: &mut O,
    err: &mut E,
) -> u8
    ensures status { result ≤ 2 }
    ensures done { result ≡ 0 → Does (D.view host.now)
        (places_of D.finds D.refuses D.opens D.closes D.discards (shown_by S.Store) host.now)
        strict (line_of command.now) (change O.taken O.failures out.old out.new) }
    ensures well { result ≡ 0 → O.failures out.new ≡ O.failures out.old }
    ensures silent { result ≡ 0 → err.new ≡ err.old }
    ensures stopped { result ≡ 1 → StopsAnd (D.view host.now)
        (places_of D.finds D.refuses D.opens D.closes D.discards (shown_by S.Store) host.now)
        strict (line_of command.now) (change O.taken O.failures out.old out.new)
        (IsToldOne false (change E.taken E.failures err.old err.new)) }
    ensures bad_line { result ≡ 2 → StopsAnd (D.view host.now)
        (places_of D.finds D.refuses D.opens D.closes D.discards (shown_by S.Store) host.now)
        strict (line_of command.now) (change O.taken O.failures out.old out.new)
        (IsToldBadLine false (change E.taken E.failures err.old err.new)) }
    ensures untouched { result ≡ 2 → out.new ≡ out.old }
{
    match perform(alloc, host, command, strict, &mut NoNotes, out) {
        Ok(()) => DONE,
        Err(stop) => stopped(alloc, err, stop),
    }
}

/// Does the same as `run_plainly`, with explanations.
fn run_explained<S: Rising, D: DatabaseHost<Connection = Connection<S>> + Copy, O: Sink, E: Sink>(
    alloc: Global,
    host: &D,
    command: &Command<'_>,
    strict: bool,
    out: &mut O,
    err: &mut E,
) -> u8
    ensures status { result ≤ 2 }
    ensures done { result ≡ 0 → Does (D.view host.now)
        (places_of D.finds D.refuses D.opens D.closes D.discards (shown_by S.Store) host.now)
        strict (line_of command.now) (change O.taken O.failures out.old out.new) }
    ensures well { result ≡ 0 → O.failures out.new ≡ O.failures out.old }
    ensures stopped { result ≡ 1 → StopsAnd (D.view host.now)
        (places_of D.finds D.refuses D.opens D.closes D.discards (shown_by S.Store) host.now)
        strict (line_of command.now) (change O.taken O.failures out.old out.new)
        (IsToldOne true (change E.taken E.failures err.old err.new)) }
    ensures bad_line { result ≡ 2 → StopsAnd (D.view host.now)
        (places_of D.finds D.refuses D.opens D.closes D.discards (shown_by S.Store) host.now)
        strict (line_of command.now) (change O.taken O.failures out.old out.new)
        (IsToldBadLine true (change E.taken E.failures err.old err.new)) }
    ensures untouched { result ≡ 2 → out.new ≡ out.old }
{
    let mut notes = Explaining {
        host: *host,
        text: String::new(alloc),
    };
    let ended = perform(alloc, host, command, strict, &mut notes, out);
    let _ = write_whole(err, notes.text.as_bytes());
    match ended {
        Ok(()) => {
            explain_done(alloc, host, command, err);
            DONE
        }
        Err(stop) => {
            let explanation = of_stop(alloc, host, command, &stop);
            let status = stopped(alloc, err, stop);
            let _ = tell(alloc, err, explanation);
            status
        }
    }
}

/// Does what a line of words asks for.
fn perform<S: Rising, D: DatabaseHost<Connection = Connection<S>>, N: Notes, O: Sink>(
    alloc: Global,
    host: &D,
    command: &Command<'_>,
    strict: bool,
    notes: &mut N,
    out: &mut O,
) -> Result<(), Stop>
    ensures done { OnOk result (Does (D.view host.now)
        (places_of D.finds D.refuses D.opens D.closes D.discards (shown_by S.Store) host.now)
        strict (line_of command.now) (change O.taken O.failures out.old out.new)) }
    ensures well { OnOk result (O.failures out.new ≡ O.failures out.old) }
    ensures stopped { IfErr result (StopsLine (D.view host.now)
        (places_of D.finds D.refuses D.opens D.closes D.discards (shown_by S.Store) host.now)
        strict (change O.taken O.failures out.old out.new) (line_of command.now)) }
    ensures bad_line { IfErr result (λ stop. stop_status stop ≡ 2 → out.new ≡ out.old) }
{
    match command {
        Command::Period(words) => settle_files(alloc, host, MOST_READ, *words, out),
        Command::Script(words) => {
            run_script(alloc, words.settings, host, words.file, strict, notes, out)?;
            Ok(())
        }
        Command::OnDatabase(words) => on_database(alloc, host, words, strict, notes, out),
    }
}

/// Does what `period` asks for, and reads at most `most` bytes of each file.
fn settle_files<H: Host, O: Sink>(
    alloc: Global,
    host: &H,
    most: usize,
    words: PeriodWords<'_>,
    out: &mut O,
) -> Result<(), Stop>
    requires { most_bytes < most }
    ensures done { OnOk result (DoesPeriod (H.view host.now) words.entry.meter.now
        words.entry.contracts.now words.entry.price.now
        (change O.taken O.failures out.old out.new)) }
    ensures well { OnOk result (O.failures out.new ≡ O.failures out.old) }
    ensures stopped { IfErr result (λ stop. StopsPeriod (H.view host.now)
        (change O.taken O.failures out.old out.new)
        words.entry.meter.now words.entry.contracts.now words.entry.price.now stop) }
    ensures untouched { IfErr result (λ stop. stop ≢ Stop.Output → out.new ≡ out.old) }
{
    let meter = host.read(alloc, words.meter, most)?;
    let contracts = host.read(alloc, words.contracts, most)?;
    period(alloc, &meter, &contracts, words.price.as_bytes(), out)?;
    Ok(())
}
