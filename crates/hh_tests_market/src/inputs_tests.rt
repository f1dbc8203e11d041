//! What no clause says and no program shows: the beginnings of sources in memory, and which faults the
//! errors of the system are.

use hh_devices::MemorySource;
use hh_inputs::*;
use std::alloc::Global;
use std::io;
use std::io::ErrorKind;

/// Whether these are the first bytes of a source that gives `abcdef` in pieces of two.
fn front_is(alloc: Global, most: usize, bytes: &[u8]) -> bool {
    let mut source = MemorySource::new(b"abcdef").in_pieces(2);
    read_front(alloc, &mut source, most).is_ok_and(|read| read.as_slice() == bytes)
}

/// How many bytes of a source are read, and what is given.
const FRONTS: [(usize, &[u8]); 4] = [(0, b""), (4, b"abcd"), (6, b"abcdef"), (9, b"abcdef")];

/// Whether a source that fails after three bytes can't be read, and has failed once.
fn is_unreadable(alloc: Global) -> bool {
    let mut failing = MemorySource::new(b"abcdef").failing_after(3);
    read_front(alloc, &mut failing, 6).is_err_and(|fault| fault == InputFault::Unreadable)
        && failing.failures() == 1
}

#[test]
fn fronts_of_sources(rt: HostRuntime) {
    for (most, bytes) in FRONTS {
        assert!(&rt; front_is(rt.alloc(), most, bytes), "{most}");
    }
    assert!(&rt; is_unreadable(rt.alloc()));
}

#[test]
fn faults_of_errors(rt: HostRuntime) {
    for (kind, fault) in [
        (ErrorKind::OutOfMemory, InputFault::Memory),
        (ErrorKind::NotFound, InputFault::Unreadable),
        (ErrorKind::PermissionDenied, InputFault::Unreadable),
    ] {
        assert_eq!(&rt; InputFault::from(io::Error::from(kind)), fault);
    }
}
