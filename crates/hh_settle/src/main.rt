//! The program `settle`.
//!
//! `command_on` does what the words of a command line ask, and gives the exit status (`done`,
//! `stopped`, `wrong`). Its clauses say the same of standard output and the status with
//! explanations as without them. With explanations nothing is said of standard error, and since an
//! explanation asks for memory and reads tables, memory may run out or a store may fail at another
//! place. If no moment is given, a load, a run or a connection has any that the clock may give
//! (`IsMoment`). `command` has these clauses for this computer, of whose files, ports, clock and
//! databases no contract knows anything. That the system gives `run` the words that were typed, and
//! that `main` passes it the runtime and the standard streams, is in no clause: read it.
#![tactic(auto)]

mod database;
mod explaining;
mod no_words;
mod program;
mod stop;
mod telling;

use hh_devices::StreamSink;
use program::run;
use std::alloc::{AllocError, Global};
use std::process::ExitCode;

/// The size in bytes of a piece of memory that is nearly the largest from which glibc learns.
const LARGE_PIECE: usize = 33_000_000;

fn main(rt: HostRuntime) -> ExitCode {
    keep_memory(rt.alloc());
    // Standard output has no buffer before it, and must have none. No sink is flushed, and the line
    // `listening` must be written before the first connection is awaited.
    let mut out = StreamSink::new(rt.stdout());
    let mut err = StreamSink::new(rt.stderr());
    ExitCode::from(run(&rt, &mut out, &mut err))
}

/// Makes the C library keep freed memory for later allocations. At first glibc returns each large piece to
/// the system when it is freed, and asks for the next one again, page by page. After a piece of some size
/// was freed, it keeps all pieces up to that size. This piece is never touched, so it costs no page. If it
/// is refused, nothing changes.
fn keep_memory(alloc: Global) {
    let _piece: Result<Vec<u8>, AllocError> = Vec::with_capacity(alloc, LARGE_PIECE);
}
