//! How it is told that words are wrong, and why a command stops.

ghost use Rattle.std.specs.Prelude.{◌≡◌, ◌++◌, OnErr, OnOk, codes, decimal};
ghost use Rattle.std.specs.Io.KnownBytes.{Appends};
ghost use Rattle.hh_devices.specs.DeviceChanges.{change};
ghost use Rattle.hh_devices.specs.Devices.{Failed};
ghost use Rattle.hh_settle.specs.Stops.{AppendsAtLeast, HasStatusOne, IsTold, Tells, TellsBadLine, stop_line, stop_status};
ghost use Rattle.hh_settle.specs.steps.Stops.{IsBadLineAnd, TellsStop, told_text};

use crate::stop::{Stop, WRONG_WORDS};
use hh_devices::{DeviceFailed, Sink, write_whole};
use hh_period::Rejection;
use hh_script::BadWord;
use hh_words::USAGE;
use itoa::Buffer;
use std::alloc::{AllocError, Global};

/// Tells what is wrong with words, unless `err` fails. If `text` is empty, it tells how the program is
/// used.
pub(crate) fn wrong<E: Sink>(err: &mut E, text: &str) -> u8
    ensures status { result ≡ 2 }
    ensures told { IsTold (change E.taken E.failures err.old err.new) (told_text text.now) }
{
    let _ = write_whole(err, told_text(text).as_bytes());
    WRONG_WORDS
}

/// What is told about wrong words: the text, or how the program is used if the text is empty.
fn told_text(text: &str) -> &str
    ensures { result.now ≡ told_text text.now }
{
    if text.is_empty() { USAGE } else { text }
}

/// Tells why a command stops, unless `err` fails, and answers the exit status.
pub(crate) fn stopped<E: Sink>(alloc: Global, err: &mut E, stop: Stop) -> u8
    ensures status { result ≡ stop_status stop }
    ensures one { result ≡ 1 → HasStatusOne stop
        × Tells (change E.taken E.failures err.old err.new) stop }
    ensures two { result ≡ 2
        → IsBadLineAnd (TellsBadLine (change E.taken E.failures err.old err.new)) stop }
{
    let status = stop.status();
    tell(alloc, err, stop);
    status
}

/// Tells why a command stops, unless `err` fails.
fn tell<E: Sink>(alloc: Global, err: &mut E, stop: Stop)
    ensures { TellsStop (change E.taken E.failures err.old err.new) stop }
{
    let _ = write_stop(alloc, err, stop);
}

/// Writes why a command stops.
fn write_stop<E: Sink>(alloc: Global, err: &mut E, stop: Stop) -> Result<(), DeviceFailed>
    ensures failed { OnErr result (Failed (E.failures err.old) (E.failures err.new)) }
    ensures told { OnOk result (TellsStop (change E.taken E.failures err.old err.new) stop) }
{
    match stop {
        Stop::Refused(rejection) => write_rejection(alloc, err, rejection),
        Stop::File => write_whole(err, b"fault file\n"),
        Stop::Output => write_whole(err, b"fault output\n"),
        Stop::Exists => write_whole(err, b"fault exists\n"),
        Stop::NoFile => write_whole(err, b"fault nofile\n"),
        Stop::NoSocket => write_whole(err, b"fault socket\n"),
        Stop::NoClock => write_whole(err, b"fault clock\n"),
        Stop::BadLine { line, word } => write_bad_line(alloc, err, line, word),
        Stop::Line { number } => write_line(err, number, b" stopped the script\n"),
    }
}

/// Writes which line of a script is off its form, and then which word of it, if there is memory for the
/// second text.
fn write_bad_line<S: Sink>(
    alloc: Global,
    sink: &mut S,
    line: usize,
    word: BadWord,
) -> Result<(), DeviceFailed>
    ensures failed { OnErr result (Failed (S.failures sink.old) (S.failures sink.new)) }
    ensures told { OnOk result (AppendsAtLeast (S.taken sink.old) (S.taken sink.new)
        (stop_line (Stop.BadLine line word))) }
{
    write_line(sink, line, b" is off its form\n")?;
    match format!(in alloc; "line {line} {word}\n") {
        Ok(text) => write_whole(sink, text.as_bytes()),
        Err(AllocError) => Ok(()),
    }
}

/// Writes `what` after the number of a script's line. Takes no memory.
fn write_line<S: Sink>(sink: &mut S, line: usize, what: &[u8]) -> Result<(), DeviceFailed>
    ensures failed { OnErr result (Failed (S.failures sink.old) (S.failures sink.new)) }
    ensures well { OnOk result (S.failures sink.new ≡ S.failures sink.old) }
    ensures told { OnOk result (Appends (S.taken sink.old) (S.taken sink.new)
        (codes "line " ++ decimal line ++ what.now)) }
{
    let mut digits = Buffer::new();
    write_whole(sink, b"line ")?;
    write_whole(sink, digits.format(line).as_bytes())?;
    write_whole(sink, what)
}

/// Writes the line of a rejection. If memory runs out for that line, it writes the line of refused memory.
fn write_rejection<S: Sink>(
    alloc: Global,
    sink: &mut S,
    rejection: Rejection,
) -> Result<(), DeviceFailed>
    ensures failed { OnErr result (Failed (S.failures sink.old) (S.failures sink.new)) }
    ensures told { OnOk result (Tells (change S.taken S.failures sink.old sink.new)
        (Stop.Refused rejection)) }
{
    match format!(in alloc; "{rejection}\n") {
        Ok(line) => write_whole(sink, line.as_bytes()),
        Err(AllocError) => write_whole(sink, b"refused 90 Memory\n"),
    }
}
