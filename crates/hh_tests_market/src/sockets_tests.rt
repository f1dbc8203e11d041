//! What no clause says and no program shows: that what went out over a connection in memory is kept, and
//! that a reader is read as often as allowed.

use hh_devices::{DeviceFailed, MemorySink, Sink, Source, StreamSource};
use hh_sockets::*;
use std::cell::RefCell;
use std::io::Cursor;

/// Answers a connection with its first bytes. How many there are.
fn echo<K: Sink, S: Source>(sink: &mut K, source: &mut S) -> usize {
    let mut piece = [0u8; 5];
    let read = source.read(&mut piece).unwrap_or(0);
    sink.write(&piece[..read]).unwrap_or(0)
}

/// Answers one connection with its first bytes, and finishes it, saying that all of it was read.
fn answer_one<L: Listener>(listener: &mut L) -> Result<usize, SocketFailed> {
    let mut connection = listener.accept()?;
    let written = echo(&mut connection.sink, &mut connection.source);
    listener.close(connection, Received::Whole);
    Ok(written)
}

/// Whether a listener has this port, and two connections in their order.
fn are_answered<L: Listener>(listener: &mut L) -> bool {
    listener.port() == 8080
        && answer_one(listener) == Ok(5)
        && answer_one(listener) == Ok(3)
        && answer_one(listener) == Err(SocketFailed)
}

/// Whether these are the replies.
fn are_kept(replies: &[MemorySink]) -> bool {
    replies.len() == 2
        && replies[0].taken() == b"hello".as_slice()
        && replies[1].taken() == b"bye".as_slice()
}

#[test]
fn connections_in_memory_come_in_their_order(rt: HostRuntime) {
    let connections: [&[u8]; 2] = [b"hello, there", b"bye"];
    let ports = [MemoryPort {
        port: 8080,
        connections: &connections,
    }];
    let replies = RefCell::new(Vec::new(rt.alloc()));
    let loopback = MemoryLoopback {
        alloc: rt.alloc(),
        ports: &ports,
        room: 16,
        replies: &replies,
    };
    assert!(&rt; loopback.listen(80).is_err());
    assert!(&rt;
        loopback
            .listen(0)
            .is_ok_and(|mut listener| are_answered(&mut listener))
    );
    assert!(&rt; replies.try_borrow().is_ok_and(|kept| are_kept(&kept)));
}

/// Whether a reader that may be read twice gives four bytes, and then fails.
fn fails_behind(source: &mut StreamSource<CountedReader<Cursor<&[u8]>>>) -> bool {
    let mut piece = [0u8; 2];
    source.read(&mut piece) == Ok(2)
        && source.read(&mut piece) == Ok(2)
        && source.read(&mut piece) == Err(DeviceFailed)
        && source.read(&mut piece) == Err(DeviceFailed)
        && source.failures() == 2
}

#[test]
fn a_counted_reader_fails_once_its_reads_are_made(rt: HostRuntime) {
    let hello = Cursor::new(b"hello".as_slice());
    let mut source = StreamSource::new(CountedReader::new(hello, 2));
    assert!(&rt; fails_behind(&mut source));
    assert_eq!(&rt; source.into_inner().reads_left(), 0);
}
