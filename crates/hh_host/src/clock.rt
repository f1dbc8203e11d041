//! A clock that tells the moments at which requests come.

ghost use Rattle.std.specs.Prelude.{ℕ, List};
ghost use Rattle.hh_host.specs.Clocks.{IsReadOnce, ClockReading};

use std::io;

/// The clock tells no moment.
#[derive(Clone, Copy, Debug, PartialEq, Eq)]
pub struct ClockFailed;

impl From<io::Error> for ClockFailed {
    fn from(_error: io::Error) -> ClockFailed {
        ClockFailed
    }
}

/// Tells the moments at which requests come.
pub trait Clock {
    /// What came of reading the clock, time after time, led from one state of it to another.
    ghost leads: { Self → List ClockReading → Self → Type 0 };

    /// The moment now, in seconds since 1970-01-01T00:00:00Z.
    fn now(&mut self) -> Result<i64, ClockFailed>
        ensures { IsReadOnce leads self.old self.new result };
}

/// A clock that always tells the same moment.
#[derive(Clone, Copy, Debug, PartialEq, Eq)]
pub struct FixedClock {
    /// The moment, in seconds since 1970-01-01T00:00:00Z.
    pub moment: i64,
}

impl Clock for FixedClock {
    ghost use Rattle.hh_host.specs.Clocks.{fixed_leads};

    ghost leads = { fixed_leads };

    fn now(&mut self) -> Result<i64, ClockFailed> {
        Ok(self.moment)
    }
}
