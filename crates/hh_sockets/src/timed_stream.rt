//! A stream of the system whose calls wait for a limited time.

ghost use Rattle.std.specs.Prelude.{◌≡◌, ℕ};
ghost use Rattle.hh_sockets.specs.TimeLimit.{IsLimitBehind};

use crate::time_limit::TimeLimit;
use hh_devices::{DeviceFailed, Reader, Writer};
use std::net::OpenStream;
use std::time::{Clock, Duration, Instant};

/// A stream, and how long its calls may wait. Each call sets the time that the stream may wait in it. If no
/// time is left, a call fails, and does not touch the stream.
///
/// The time begins with the first call, unless `begin` was called before. As long as the clock tells no
/// moment, no time passes, and each call may wait as long as one call may.
#[derive(Drop)]
pub struct TimedStream<'a, S, R> {
    stream: S,
    clock: &'a R,
    limit: TimeLimit,
    begun: Option<Instant>,
}

impl<'a, S, R: Clock> TimedStream<'a, S, R> {
    ghost use Rattle.hh_sockets.specs.TimedStream.{limit_of, timed_stream};

    /// The stream with this limit. No time has passed.
    pub fn new(stream: S, clock: &'a R, limit: TimeLimit) -> TimedStream<'a, S, R>
        ensures stream { timed_stream result ≡ stream }
        ensures limit { limit_of result ≡ limit }
    {
        TimedStream {
            stream,
            clock,
            limit,
            begun: None,
        }
    }

    /// The time begins now, unless it has begun already.
    pub fn begin(&mut self)
        ensures stream { timed_stream self.new ≡ timed_stream self.old }
        ensures limit { limit_of self.new ≡ limit_of self.old }
    {
        let _ = self.passed();
    }

    /// The stream after a reply: it has half a second more than what is left, and half a second for each
    /// call.
    pub fn behind(mut self) -> TimedStream<'a, S, R>
        ensures stream { timed_stream result ≡ timed_stream self.entry }
        ensures limit { (passed : ℕ)
            × IsLimitBehind (limit_of self.entry) passed (limit_of result) }
    {
        let passed = self.passed();
        self.limit = self.limit.behind(passed);
        self
    }

    /// The stream itself.
    pub fn into_inner(self) -> S
        ensures { result ≡ timed_stream self.entry }
    {
        self.stream
    }

    /// How long the next call may wait. It is `None` if no time is left.
    fn wait(&mut self) -> Option<Duration>
        ensures stream { timed_stream self.new ≡ timed_stream self.old }
        ensures limit { limit_of self.new ≡ limit_of self.old }
    {
        let passed = self.passed();
        self.limit.wait_after(passed)
    }

    /// How much time has passed since it began.
    fn passed(&mut self) -> Duration
        ensures stream { timed_stream self.new ≡ timed_stream self.old }
        ensures limit { limit_of self.new ≡ limit_of self.old }
    {
        let Ok(now) = Instant::now(self.clock) else {
            return Duration::ZERO;
        };
        let begun = self.begun.unwrap_or(now);
        self.begun = Some(begun);
        now.duration_since(begun)
    }
}

impl<S: Reader + OpenStream, R: Clock> Reader for TimedStream<'_, S, R> {
    ghost use Rattle.hh_sockets.specs.TimedStream.{ReadsInTime, timed_stream};

    ghost remaining = { λ s. S.remaining (timed_stream s) };

    ghost reads = { ReadsInTime S.reads };

    fn read_some(&mut self, buffer: &mut [u8]) -> Result<usize, DeviceFailed> {
        let wait = self.wait();
        if wait.is_none() || self.stream.set_read_timeout(wait).is_err() {
            return Err(DeviceFailed);
        }
        self.stream.read_some(buffer)
    }
}

impl<S: Writer + OpenStream, R: Clock> Writer for TimedStream<'_, S, R> {
    ghost use Rattle.hh_sockets.specs.TimedStream.{WritesInTime, timed_stream};

    ghost contents = { λ s. S.contents (timed_stream s) };

    ghost writes = { WritesInTime S.writes };

    fn write_some(&mut self, bytes: &[u8]) -> Result<usize, DeviceFailed> {
        let wait = self.wait();
        if wait.is_none() || self.stream.set_write_timeout(wait).is_err() {
            return Err(DeviceFailed);
        }
        self.stream.write_some(bytes)
    }
}
