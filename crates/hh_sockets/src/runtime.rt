//! The sockets of the system.

ghost use Rattle.std.specs.Prelude.{◌≡◌, ⊤, IfOk};
ghost use Rattle.hh_devices.specs.StreamSink.{writer_of};
ghost use Rattle.hh_devices.specs.StreamSource.{reader_of};
ghost use Rattle.hh_sockets.specs.CountedReader.{counted_reader, most_reads, reads_left_of};
ghost use Rattle.hh_sockets.specs.TimedStream.{limit_of};
ghost use Rattle.hh_sockets.specs.TimeLimit.{IsLimit, most_time, most_wait};

use crate::counted_reader::CountedReader;
use crate::loopback::{Connection, Listener, Loopback, Received, SocketFailed};
use crate::time_limit::TimeLimit;
use crate::timed_stream::TimedStream;
use hh_devices::{Reader, StreamSink, StreamSource};
use std::net::{Ipv4Addr, Net, OpenListener, OpenStream, Shutdown, TcpListener};
use std::time::Clock;

/// How many times a client is read in all, including what is read after its reply (profile).
const MOST_READS: u32 = 4_096;

/// How many bytes are read in one call from a client that has its reply.
const PIECE: usize = 8_192;

/// The loopback interface of the system. No clause of std says what listening on a port does or what comes
/// on it, so no clause here says more than the port's number.
#[derive(Clone, Copy)]
pub struct RuntimeLoopback<'a, R>(pub &'a R);

/// A listener of the system, and the clock that tells how long its clients take.
#[derive(Drop)]
pub struct RuntimeListener<'a, L, R> {
    listener: L,
    port: u16,
    clock: &'a R,
}

impl<'a, R: Net + Clock> Loopback for RuntimeLoopback<'a, R> {
    type Listener = RuntimeListener<'a, R::Listener, R>;

    ghost ports = { λ _. record { refuses = λ _. ⊤; brings = λ _ _. ⊤ } };

    fn listen(&self, port: u16) -> Result<RuntimeListener<'a, R::Listener, R>, SocketFailed> {
        let listener = TcpListener::bind(self.0, (Ipv4Addr::LOCALHOST, port))?;
        let port = if port == 0 {
            listener.local_addr()?.port()
        } else {
            port
        };
        if port == 0 {
            return Err(SocketFailed);
        }
        Ok(RuntimeListener {
            listener,
            port,
            clock: self.0,
        })
    }
}

impl<'a, L, R: Clock> Listener for RuntimeListener<'a, L, R>
where
    L: OpenListener,
    L::Stream: std::io::Read + std::io::Write + OpenStream + Drop,
{
    type Source = StreamSource<CountedReader<TimedStream<'a, L::Stream, R>>>;

    type Sink = StreamSink<TimedStream<'a, L::Stream, R>>;

    ghost port_of = { λ l. l.port };

    ghost leads = { λ _ _ _. ⊤ };

    fn port(&self) -> u16 {
        self.port
    }

    /// A client that sends or takes nothing for ten seconds has failed. So has a client whose request is
    /// not whole 30 seconds from now or after the greatest number of reads, and a client that has not taken
    /// its reply 30 seconds after the first write of it.
    fn accept(&mut self) -> Result<Connection<Self::Source, Self::Sink>, SocketFailed>
        ensures reads { IfOk result
            (λ connection. reads_left_of (reader_of connection.source) ≡ most_reads) }
        ensures read_time { IfOk result (λ connection. IsLimit most_time most_wait
            (limit_of (counted_reader (reader_of connection.source)))) }
        ensures write_time { IfOk result (λ connection. IsLimit most_time most_wait
            (limit_of (writer_of connection.sink))) }
    {
        let (stream, _) = self.listener.accept()?;
        let limit = TimeLimit::of_a_client();
        let mut incoming = TimedStream::new(stream.try_clone()?, self.clock, limit);
        incoming.begin();
        Ok(Connection {
            source: StreamSource::new(CountedReader::new(incoming, MOST_READS)),
            sink: StreamSink::new(TimedStream::new(stream, self.clock, limit)),
        })
    }

    /// Tells the client that no more is written. If a system closes a socket with unread bytes, the client
    /// may lose what was written before. So a client that may still be sending, or has sent more than was
    /// read, is read further: at most as often as it may still be read, and for half a second more than
    /// what is left of its 30 seconds.
    fn close(&mut self, connection: Connection<Self::Source, Self::Sink>, received: Received)
        ensures { ⊤ }
    {
        let Connection { source, sink } = connection;
        let mut reader = behind(source.into_inner());
        let stream = sink.into_inner().into_inner();
        if stream.shutdown(Shutdown::Write).is_err() {
            return;
        }
        if received == Received::Beginning || has_sent_more(&stream, &mut reader) {
            read_behind(&mut reader);
        }
    }
}

/// The reader of a client after its reply, with as many reads left.
fn behind<'a, S, R: Clock>(
    reader: CountedReader<TimedStream<'a, S, R>>,
) -> CountedReader<TimedStream<'a, S, R>>
    ensures { reads_left_of result ≡ reads_left_of reader.entry }
{
    let reads_left = reader.reads_left();
    CountedReader::new(reader.into_inner().behind(), reads_left)
}

/// Whether a client has sent bytes after those that were read. One of them is read for this, and counts as
/// one of the reads of the client.
fn has_sent_more<S: OpenStream, T: Reader>(stream: &S, reader: &mut T) -> bool {
    let mut byte = [0u8; 1];
    if stream.set_nonblocking(true).is_err() {
        return true;
    }
    match reader.read_some(&mut byte) {
        Ok(count) if count > 0 => stream.set_nonblocking(false).is_ok(),
        _ => false,
    }
}

/// Reads until the end, a failure, or the last read that is left.
fn read_behind<T: Reader>(reader: &mut CountedReader<T>) {
    let mut piece = [0u8; PIECE];
    for _ in 0..reader.reads_left() {
        match reader.read_some(&mut piece) {
            Ok(count) if count > 0 => (),
            _ => return,
        }
    }
}
