//! What no clause says: how long a stream may wait in a call, by a clock that is set by hand.

ghost use Rattle.std.specs.Prelude.{⊤, None};

use hh_devices::{DeviceFailed, Reader, Writer};
use hh_sockets::{TimeLimit, TimedStream};
use std::cell::Cell;
use std::io;
use std::net::OpenStream;
use std::time::{Clock, Duration};

/// A clock that tells the milliseconds that it was set to, or nothing; and how long the last call of a
/// stream was allowed to wait.
#[derive(Drop)]
struct Times {
    now: Cell<Option<u64>>,
    wait: Cell<Option<Duration>>,
}

impl Times {
    fn new() -> Times {
        Times {
            now: Cell::new(None),
            wait: Cell::new(None),
        }
    }
}

impl Clock for Times {
    fn monotonic(&self) -> io::Result<Duration> {
        match self.now.get() {
            Some(now) => Ok(Duration::from_millis(now)),
            None => Err(io::Error::from(io::ErrorKind::Unsupported)),
        }
    }

    fn since_1970(&self) -> io::Result<Duration> {
        self.monotonic()
    }
}

/// A stream that gives and takes all that is asked of it.
#[derive(Clone, Copy)]
struct Patient<'a>(&'a Times);

impl OpenStream for Patient<'_> {
    fn set_read_timeout(&self, wait: Option<Duration>) -> io::Result<()> {
        self.0.wait.set(wait);
        Ok(())
    }

    fn set_write_timeout(&self, wait: Option<Duration>) -> io::Result<()> {
        self.0.wait.set(wait);
        Ok(())
    }
}

impl Reader for Patient<'_> {
    ghost remaining = { λ _. None };

    ghost reads = { λ _ _ _ _ _. ⊤ };

    fn read_some(&mut self, buffer: &mut [u8]) -> Result<usize, DeviceFailed> {
        Ok(buffer.len())
    }
}

impl Writer for Patient<'_> {
    ghost contents = { λ _. None };

    ghost writes = { λ _ _ _ _. ⊤ };

    fn write_some(&mut self, bytes: &[u8]) -> Result<usize, DeviceFailed> {
        Ok(bytes.len())
    }
}

/// How many milliseconds a read may wait when the clock tells these; nothing if it fails.
fn read_at<'a>(
    times: &'a Times,
    stream: &mut TimedStream<'a, Patient<'a>, Times>,
    now: Option<u64>,
) -> Option<u128> {
    times.now.set(now);
    let mut piece = [0u8; 4];
    stream.read_some(&mut piece).ok()?;
    Some(times.wait.get()?.as_millis())
}

/// The same for a write.
fn write_at<'a>(
    times: &'a Times,
    stream: &mut TimedStream<'a, Patient<'a>, Times>,
    now: Option<u64>,
) -> Option<u128> {
    times.now.set(now);
    stream.write_some(b"some").ok()?;
    Some(times.wait.get()?.as_millis())
}

/// What a stream may wait at a time that the clock tells, or that it doesn't tell.
type Step = (Option<u64>, Option<u128>);

/// A stream whose time is limited as a client's is.
type Client<'a> = TimedStream<'a, Patient<'a>, Times>;

/// Whether reads may wait so long at these times.
fn reads_wait<'a>(times: &'a Times, stream: &mut Client<'a>, steps: &[Step]) -> bool {
    for (now, wait) in steps {
        if read_at(times, stream, *now) != *wait {
            return false;
        }
    }
    true
}

/// Whether writes may wait so long at these times.
fn writes_wait<'a>(times: &'a Times, stream: &mut Client<'a>, steps: &[Step]) -> bool {
    for (now, wait) in steps {
        if write_at(times, stream, *now) != *wait {
            return false;
        }
    }
    true
}

/// A request has thirty seconds.
const OF_A_REQUEST: [Step; 5] = [
    (Some(119_000), Some(10_000)),
    (Some(120_001), Some(9_999)),
    (Some(129_999), Some(1)),
    (Some(130_000), None),
    (Some(500_000), None),
];

/// Its time is over, so half a second is left after its reply, whenever that comes.
const BEHIND_ITS_TIME: [Step; 2] = [(Some(500_100), Some(400)), (Some(500_500), None)];

#[test]
fn a_request_has_thirty_seconds(rt: HostRuntime) {
    let times = Times::new();
    let mut stream = TimedStream::new(Patient(&times), &times, TimeLimit::of_a_client());
    times.now.set(Some(100_000));
    stream.begin();
    assert!(&rt; reads_wait(&times, &mut stream, &OF_A_REQUEST));
    let mut stream = stream.behind();
    assert!(&rt; reads_wait(&times, &mut stream, &BEHIND_ITS_TIME));
}

/// What is left of thirty seconds counts behind a reply.
const BEHIND_A_REPLY: [Step; 3] = [
    (Some(34_000), Some(500)),
    (Some(35_200), Some(300)),
    (Some(35_500), None),
];

#[test]
fn what_is_left_of_thirty_seconds_counts_behind_a_reply(rt: HostRuntime) {
    let times = Times::new();
    let mut stream = TimedStream::new(Patient(&times), &times, TimeLimit::of_a_client());
    assert!(&rt; reads_wait(&times, &mut stream, &[(Some(5_000), Some(10_000))]));
    let mut stream = stream.behind();
    assert!(&rt; reads_wait(&times, &mut stream, &BEHIND_A_REPLY));
}

/// The time of a reply begins with its first write.
const OF_A_REPLY: [Step; 3] = [
    (Some(900_000), Some(10_000)),
    (Some(929_000), Some(1_000)),
    (Some(930_000), None),
];

#[test]
fn the_time_of_a_reply_begins_with_its_first_write(rt: HostRuntime) {
    let times = Times::new();
    let mut stream = TimedStream::new(Patient(&times), &times, TimeLimit::of_a_client());
    assert!(&rt; writes_wait(&times, &mut stream, &OF_A_REPLY));
}

/// A clock that tells nothing ends nobody.
const UNTOLD: [Step; 4] = [
    (None, Some(10_000)),
    (Some(70_000), Some(10_000)),
    (None, Some(10_000)),
    (Some(100_000), None),
];

#[test]
fn a_clock_that_tells_nothing_ends_nobody(rt: HostRuntime) {
    let times = Times::new();
    let mut stream = TimedStream::new(Patient(&times), &times, TimeLimit::of_a_client());
    stream.begin();
    assert!(&rt; reads_wait(&times, &mut stream, &UNTOLD));
}
