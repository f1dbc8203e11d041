//! The commands `answer` and `log`: damaged inputs are read twice each, and their answers are written. The
//! answer of an input is one line. If the second answer differs, this line is `differs`.

use crate::calls::Call;
use crate::checksum::mixed_bytes;
use crate::course::course_of;
use crate::stop::TrialStop;
use hh_devices::{MemorySource, StreamSink, write_whole};
use hh_rows::FileKind;
use hh_script::{ScriptFault, read_script};
use hh_texts::read_file;
use hh_wire::{Incoming, Routes, WireFault, read_request};
use std::alloc::{AllocError, Global};
use std::fs;
use std::io::{BufReader, ErrorKind, Read};

/// A request comes in pieces of fewer bytes than this when it is read again.
const MOST_PIECE: u64 = 599;

/// What inputs are read as.
#[derive(Drop)]
pub(crate) enum Kind {
    /// Files that are loaded.
    File(FileKind),
    /// The bytes that clients send.
    Request,
    /// Scripts.
    Script,
    /// The file of an office's database and its log. Of the office these calls are asked.
    Database(Vec<Call>),
}

/// Answers the inputs on standard input, one after the other. An input has two parts: its bytes, and those
/// of the log beside a database. Each part comes behind the number of its bytes, which has four bytes with
/// the most significant first.
pub(crate) fn answer_inputs(rt: &HostRuntime, kind: &Kind) -> Result<(), TrialStop> {
    let mut reader = BufReader::new(rt.alloc(), rt.stdin())?;
    let mut bytes = Vec::new(rt.alloc());
    let mut log = Vec::new(rt.alloc());
    for _ in 0..u64::MAX {
        if !next_part(&mut reader, &mut bytes)? || !next_part(&mut reader, &mut log)? {
            break;
        }
        let answer = answer_to(rt.alloc(), kind, &bytes, &log)?;
        println!(rt; "{answer}").ok().ok_or(TrialStop::Output)?;
    }
    Ok(())
}

/// Writes the log beside an office's database file after the calls and before it is closed.
pub(crate) fn write_log(rt: &HostRuntime, path: &str, calls: &[Call]) -> Result<(), TrialStop> {
    let bytes = fs::read(rt, path)?;
    let course = course_of(rt.alloc(), &bytes, &[], calls)?;
    let mut out = StreamSink::new(rt.stdout());
    let written = write_whole(&mut out, course.left.log.bytes());
    written.ok().ok_or(TrialStop::Output)
}

/// Reads the next part of an input. `false` if there is none.
fn next_part<R: Read>(reader: &mut R, part: &mut Vec<u8>) -> Result<bool, TrialStop> {
    let mut length = [0u8; 4];
    match reader.read_exact(&mut length) {
        Ok(()) => {}
        Err(error) if error.kind() == ErrorKind::UnexpectedEof => return Ok(false),
        Err(error) => return Err(TrialStop::from(error)),
    }
    part.resize(u32::from_be_bytes(length) as usize, 0)?;
    reader.read_exact(part.as_mut_slice())?;
    Ok(true)
}

/// The answer to an input.
fn answer_to(alloc: Global, kind: &Kind, bytes: &[u8], log: &[u8]) -> Result<String, TrialStop> {
    match kind {
        Kind::File(kind) => Ok(file_answer(alloc, *kind, bytes)?),
        Kind::Request => Ok(request_answer(alloc, bytes)?),
        Kind::Script => Ok(script_answer(alloc, bytes)?),
        Kind::Database(calls) => database_answer(alloc, bytes, log, calls),
    }
}

/// `answered` with the number of rows, or the refusal with its places.
fn file_answer(alloc: Global, kind: FileKind, bytes: &[u8]) -> Result<String, AllocError> {
    let read = read_file(alloc, kind, bytes);
    if read != read_file(alloc, kind, bytes) {
        return format!(in alloc; "differs");
    }
    match read {
        Ok(rows) => format!(in alloc; "answered {}", rows.len()),
        Err(fault) => format!(in alloc; "{fault}"),
    }
}

/// `closed`, `answered`, or the refusal's number. Bytes that come in pieces get the same as if they come at
/// once.
fn request_answer(alloc: Global, bytes: &[u8]) -> Result<String, AllocError> {
    let piece = (mixed_bytes(0, bytes) % MOST_PIECE) as usize;
    let read = read_in_pieces(alloc, bytes, bytes.len());
    if !is_read_again(alloc, bytes, piece, &read)? {
        return format!(in alloc; "differs");
    }
    match &read {
        Ok(Incoming::Closed) => format!(in alloc; "closed"),
        Ok(Incoming::Asked(_)) => format!(in alloc; "answered"),
        Err(WireFault::Refused(refused)) => {
            format!(in alloc; "refused {}", refused.cause.refusal().number())
        }
        Err(WireFault::Read) => format!(in alloc; "unread"),
    }
}

/// Whether all that is read of a client that sends `piece` of its bytes at a time is this, as a text.
fn is_read_again(
    alloc: Global,
    bytes: &[u8],
    piece: usize,
    read: &Result<Incoming, WireFault>,
) -> Result<bool, AllocError> {
    let first = format!(in alloc; "{read:?}")?;
    let second = format!(in alloc; "{:?}", read_in_pieces(alloc, bytes, piece))?;
    Ok(first.as_str() == second.as_str())
}

/// What is read from a client that sends `piece` of its bytes at a time.
fn read_in_pieces(alloc: Global, bytes: &[u8], piece: usize) -> Result<Incoming, WireFault> {
    let mut source = MemorySource::new(bytes).in_pieces(piece.max(1));
    read_request(alloc, &mut Routes::new(), &mut source)
}

/// `answered` with the number of lines, or `off` with that of the line that is off its form.
fn script_answer(alloc: Global, bytes: &[u8]) -> Result<String, AllocError> {
    let read = read_script(alloc, bytes);
    if read != read_script(alloc, bytes) {
        return format!(in alloc; "differs");
    }
    match read {
        Ok(lines) => format!(in alloc; "answered {}", lines.len()),
        Err(ScriptFault::BadLine { line, .. }) => format!(in alloc; "off {line}"),
        Err(ScriptFault::Memory) => Err(AllocError),
    }
}

/// The numbers of the refusals to open the database and of each call, as a list, in which 0 is no refusal.
/// What is told and what is left in the files must be the same the second time, too.
fn database_answer(
    alloc: Global,
    db: &[u8],
    log: &[u8],
    calls: &[Call],
) -> Result<String, TrialStop> {
    let course = course_of(alloc, db, log, calls)?;
    if !course.is_same(&course_of(alloc, db, log, calls)?) {
        return Ok(format!(in alloc; "differs")?);
    }
    Ok(format!(in alloc; "{:?}", course.heard.numbers)?)
}
