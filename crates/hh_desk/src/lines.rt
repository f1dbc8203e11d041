//! The lines that tell what was done. None of them takes memory, so what was done can always be told.

ghost use Rattle.std.specs.Prelude.{◌≡◌, ◌≤◌, ◌+◌, ◌++◌, decimal, length};
ghost use Rattle.std.specs.Fmt.{signed_decimal};
ghost use Rattle.arrayvec.specs.ArrayVec.{array_vec_len};
ghost use Rattle.hh_time.specs.DateText.{date_text};
ghost use Rattle.hh_runs.specs.RunKinds.{run_kind_code};
ghost use Rattle.hh_desk.specs.Lines.{listening_line, loaded_line, run_line, run_name, summary_text};

use arrayvec::ArrayVec;
use hh_num::Pence;
use hh_requests::Loaded;
use hh_runs::{RunKey, RunKind, Summary};
use hh_time::SettlementDate;
use itoa::Buffer;

/// The most bytes of a line. The longest is that of a run: four numbers of at most 40 bytes each, and 57
/// bytes of words, date and kind.
pub const LINE_ROOM: usize = 217;

/// The line of an accepted file: `applied=N late=M`.
pub fn loaded_line(loaded: Loaded) -> ArrayVec<u8, LINE_ROOM>
    ensures { result.items ≡ loaded_line loaded }
{
    let mut line = ArrayVec::new();
    push(&mut line, b"applied=");
    push_number(&mut line, loaded.applied);
    push(&mut line, b" late=");
    push_number(&mut line, loaded.late);
    push(&mut line, b"\n");
    line
}

/// The line of a run: `run DATE KIND periods N accounts N residual T postings N`, the residual in pence.
pub fn run_line(run: &RunKey, summary: &Summary) -> ArrayVec<u8, LINE_ROOM>
    ensures { result.items ≡ run_line run.now summary.now }
{
    let mut line = ArrayVec::new();
    push_run_name(&mut line, run);
    push_summary(&mut line, summary);
    push(&mut line, b"\n");
    line
}

/// The line that tells on which port connections are awaited: `listening 127.0.0.1:PORT`.
pub fn listening_line(port: u16) -> ArrayVec<u8, LINE_ROOM>
    ensures { result.items ≡ listening_line port }
{
    let mut line = ArrayVec::new();
    push(&mut line, b"listening 127.0.0.1:");
    push_number(&mut line, u32::from(port));
    push(&mut line, b"\n");
    line
}

/// Appends bytes. There is room for them.
fn push(line: &mut ArrayVec<u8, LINE_ROOM>, bytes: &[u8])
    requires { array_vec_len line.old + length bytes.now ≤ LINE_ROOM }
    ensures items { line.new.items ≡ line.old.items ++ bytes.now }
    ensures len { array_vec_len line.new ≡ array_vec_len line.old + length bytes.now }
{
    let pushed = line.try_extend_from_slice(bytes);
    prove!(pushed.is_ok());
}

/// Appends a number. There is room for it.
fn push_number(line: &mut ArrayVec<u8, LINE_ROOM>, number: u32)
    requires { array_vec_len line.old + 40 ≤ LINE_ROOM }
    ensures items { line.new.items ≡ line.old.items ++ decimal number }
    ensures len { array_vec_len line.new ≤ array_vec_len line.old + 40 }
{
    let mut buffer = Buffer::new();
    push(line, buffer.format(number).as_bytes());
}

/// Appends an amount of cash in pence. There is room for it.
fn push_pence(line: &mut ArrayVec<u8, LINE_ROOM>, pence: Pence)
    requires { array_vec_len line.old + 40 ≤ LINE_ROOM }
    ensures items { line.new.items ≡ line.old.items ++ signed_decimal pence }
    ensures len { array_vec_len line.new ≤ array_vec_len line.old + 40 }
{
    let mut buffer = Buffer::new();
    push(line, buffer.format(pence.units()).as_bytes());
}

/// Appends a date. There is room for it.
fn push_date(line: &mut ArrayVec<u8, LINE_ROOM>, date: SettlementDate)
    requires { array_vec_len line.old + 10 ≤ LINE_ROOM }
    ensures items { line.new.items ≡ line.old.items ++ date_text date }
    ensures len { array_vec_len line.new ≡ array_vec_len line.old + 10 }
{
    push(line, &date.text());
}

/// Appends the code of a kind of run. There is room for it.
fn push_kind(line: &mut ArrayVec<u8, LINE_ROOM>, kind: RunKind)
    requires { array_vec_len line.old + 2 ≤ LINE_ROOM }
    ensures items { line.new.items ≡ line.old.items ++ run_kind_code kind }
    ensures len { array_vec_len line.new ≡ array_vec_len line.old + 2 }
{
    push(line, kind.code().as_bytes());
}

/// Appends the name of a run. There is room for it.
fn push_run_name(line: &mut ArrayVec<u8, LINE_ROOM>, run: &RunKey)
    requires { array_vec_len line.old + 17 ≤ LINE_ROOM }
    ensures items { line.new.items ≡ line.old.items ++ run_name run.now }
    ensures len { array_vec_len line.new ≡ array_vec_len line.old + 17 }
{
    push(line, b"run ");
    push_date(line, run.date);
    push(line, b" ");
    push_kind(line, run.kind);
}

/// Appends the summary of a run. There is room for it.
fn push_summary(line: &mut ArrayVec<u8, LINE_ROOM>, summary: &Summary)
    requires { array_vec_len line.old + 199 ≤ LINE_ROOM }
    ensures items { line.new.items ≡ line.old.items ++ summary_text summary.now }
    ensures len { array_vec_len line.new ≤ array_vec_len line.old + 199 }
{
    push(line, b" periods ");
    push_number(line, u32::from(summary.periods));
    push(line, b" accounts ");
    push_number(line, u32::from(summary.accounts));
    push(line, b" residual ");
    push_pence(line, summary.residual);
    push(line, b" postings ");
    push_number(line, u32::from(summary.postings));
}
