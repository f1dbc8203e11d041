//! What no clause says: that each call succeeds, and what definitions in the clauses mean for examples.

ghost use Rattle.std.specs.Prelude.{◌≡◌, ◌≤◌, min, length, Ok, None, IfOk};

use hh_devices::*;
use std::io::{self, Cursor, ErrorKind, Read, Write};

/// The answer to writing a whole text to a sink, how many bytes it has taken by then, and how often it
/// failed.
fn whole_write(sink: &mut MemorySink, text: &[u8]) -> (Result<(), DeviceFailed>, usize, u64) {
    let done = write_whole(sink, text);
    (done, sink.taken().len(), sink.failures())
}

/// Whether a sink with room for ten bytes takes the first ten of thirteen, and fails.
fn takes_ten(sink: &mut MemorySink) -> bool {
    whole_write(sink, b"abcdef") == (Ok(()), 6, 0)
        && whole_write(sink, b"ghijklm") == (Err(DeviceFailed), 10, 1)
        && sink.taken() == b"abcdefghij".as_slice()
}

#[test]
fn memory_sinks_take_up_to_their_room(rt: HostRuntime) {
    let mut sink = MemorySink::with_room(rt.alloc(), 10);
    assert!(rt; sink.as_mut().is_ok_and(|sink| takes_ten(sink)));
}

/// Whether a sink that fails after so many bytes takes what comes behind that.
fn fails_once(sink: MemorySink, count: usize) -> bool {
    let mut sink = sink.in_pieces(4).failing_after(count);
    whole_write(&mut sink, b"abcdef") == (Err(DeviceFailed), count, 1)
        && whole_write(&mut sink, b"XY") == (Ok(()), count.saturating_add(2), 1)
}

#[test]
fn memory_sinks_fail_once_in_mid_stream(rt: HostRuntime) {
    for count in 0..6 {
        let sink = MemorySink::with_room(rt.alloc(), 100);
        assert!(rt; sink.is_ok_and(|sink| fails_once(sink, count)));
    }
}

/// Whether the next read of a source comes to this, with this byte first in the buffer.
fn reads(source: &mut MemorySource<'_>, wanted: Result<usize, DeviceFailed>, first: u8) -> bool {
    let mut buffer = [first; 8];
    source.read(&mut buffer) == wanted && buffer[0] == first
}

#[test]
fn memory_sources_give_pieces_and_fail_once(rt: HostRuntime) {
    let mut source = MemorySource::new(b"abcdef").in_pieces(4).failing_after(5);
    for (wanted, first) in [
        (Ok(4), b'a'),
        (Ok(1), b'e'),
        (Err(DeviceFailed), b'e'),
        (Ok(1), b'f'),
        (Ok(0), b'f'),
    ] {
        assert!(rt; reads(&mut source, wanted, first));
    }
    assert_eq!(rt; source.failures(), 1);
}

/// A stream of std that fails at its second call.
#[derive(Drop)]
struct Unsteady {
    calls: u8,
}

impl Unsteady {
    fn call(&mut self, length: usize) -> io::Result<usize>
        ensures { IfOk result (λ n. n ≤ length) }
    {
        self.calls = self.calls.saturating_add(1);
        if self.calls == 2 {
            return Err(ErrorKind::BrokenPipe.into());
        }
        Ok(length.min(3))
    }
}

impl Write for Unsteady {
    fn write(&mut self, bytes: &[u8]) -> io::Result<usize> {
        self.call(bytes.len())
    }

    fn flush(&mut self) -> io::Result<()> {
        Ok(())
    }
}

impl Read for Unsteady {
    fn read(&mut self, buffer: &mut [u8]) -> io::Result<usize> {
        self.call(buffer.len())
    }
}

/// Whether a list takes a whole text.
fn list_takes(list: Vec<u8>, text: &[u8]) -> bool {
    let mut sink = StreamSink::new(list);
    let done = write_whole(&mut sink, text);
    done == Ok(()) && sink.failures() == 0 && sink.into_inner().as_slice() == text
}

/// Whether a buffer of four bytes takes the first four of a text, and fails.
fn buffer_takes(text: &[u8]) -> bool {
    let mut sink = StreamSink::new(Cursor::new([0u8; 4]));
    let done = write_whole(&mut sink, text);
    done == Err(DeviceFailed)
        && sink.failures() == 1
        && text.starts_with(&sink.into_inner().into_inner())
}

/// Whether a source gives a text of three bytes, and then nothing more.
fn gives(text: &[u8]) -> bool {
    let mut buffer = [0u8; 8];
    let mut source = StreamSource::new(Cursor::new(text));
    source.read(&mut buffer) == Ok(3)
        && &buffer[..3] == text
        && source.read(&mut buffer) == Ok(0)
        && source.failures() == 0
}

#[test]
fn streams_of_std_are_devices(rt: HostRuntime) {
    assert!(&rt; list_takes(Vec::new(rt.alloc()), b"one,two\n"));
    assert!(&rt; buffer_takes(b"abcdef"));
    assert!(&rt; gives(b"abc"));
}

/// Whether a sink fails once, at its second write.
fn sink_fails_once() -> bool {
    let mut sink = StreamSink::new(Unsteady { calls: 0 });
    sink.write(b"abcdef") == Ok(3)
        && sink.write(b"def") == Err(DeviceFailed)
        && sink.write(b"def") == Ok(3)
        && sink.failures() == 1
}

/// Whether a source fails once, at its second read.
fn source_fails_once() -> bool {
    let mut buffer = [0u8; 8];
    let mut source = StreamSource::new(Unsteady { calls: 0 });
    source.read(&mut buffer) == Ok(3)
        && source.read(&mut buffer) == Err(DeviceFailed)
        && source.read(&mut buffer) == Ok(3)
        && source.failures() == 1
        && source.into_inner().calls == 3
}

#[test]
fn failing_streams_are_counted(rt: HostRuntime) {
    assert!(&rt; sink_fails_once());
    assert!(&rt; source_fails_once());
}

/// A writer that is known completely: it takes at most three bytes in a call.
#[derive(Drop)]
struct Slow {
    calls: u8,
}

impl Writer for Slow {
    ghost contents = { λ _. None };

    ghost writes = { λ _ bytes result _. result ≡ Ok (min (length bytes) 3) };

    fn write_some(&mut self, bytes: &[u8]) -> Result<usize, DeviceFailed> {
        self.calls = self.calls.saturating_add(1);
        Ok(bytes.len().min(3))
    }
}

/// What is known of a writer is known of the sink that writes to it.
fn slow_write(sink: &mut StreamSink<Slow>, bytes: &[u8]) -> Result<usize, DeviceFailed>
    ensures { result ≡ Ok (min (length bytes.now) 3) }
{
    sink.write(bytes)
}

/// Whether writes to a sink come to what is known of its writer, which is called twice.
fn is_known() -> bool {
    let mut sink = StreamSink::new(Slow { calls: 0 });
    slow_write(&mut sink, b"abcdef") == Ok(3)
        && slow_write(&mut sink, b"de") == Ok(2)
        && sink.failures() == 0
        && sink.into_inner().calls == 2
}

#[test]
fn known_writers_give_known_sinks(rt: HostRuntime) {
    assert!(rt; is_known());
}
