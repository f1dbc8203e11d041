//! How long calls may wait.

ghost use Rattle.std.specs.Prelude.{◌≡◌, ◌-◌, ◌<◌, ◌↔◌, min, IfSome, IsSome};
ghost use Rattle.std.specs.Duration.{as_nanos};
ghost use Rattle.hh_sockets.specs.TimeLimit.{IsLimit, IsLimitBehind, most_time, most_wait};

use std::time::Duration;

/// How long a client is awaited in all for its request, and then in all for its reply, in seconds.
const MOST_SECONDS: u64 = 30;

/// How long a client is awaited in one read or write, in seconds.
const MOST_SECONDS_IN_ONE: u64 = 10;

/// How long a client that has its reply is awaited in one read, and how much longer than its time in all,
/// in milliseconds.
const MOST_MILLISECONDS_BEHIND: u64 = 500;

/// How long calls may wait: all of them together, and each of them.
#[derive(Clone, Copy, Debug, PartialEq, Eq)]
pub struct TimeLimit {
    /// How long all calls together may wait.
    pub in_all: Duration,
    /// How long each call may wait.
    pub in_one: Duration,
}

impl TimeLimit {
    /// The limit of a client: 30 seconds in all, and ten in one call.
    pub fn of_a_client() -> TimeLimit
        ensures { IsLimit most_time most_wait result }
    {
        TimeLimit {
            in_all: Duration::from_secs(MOST_SECONDS),
            in_one: Duration::from_secs(MOST_SECONDS_IN_ONE),
        }
    }

    /// How long the next call may wait after `passed`: as long as one call may, but no longer than what is
    /// left. It is `None` if nothing is left.
    pub fn wait_after(&self, passed: Duration) -> Option<Duration>
        ensures wait { IfSome result (λ wait. as_nanos wait
            ≡ min (as_nanos self.now.in_one) (as_nanos self.now.in_all - as_nanos passed)) }
        ensures some { IsSome result ↔ (as_nanos passed < as_nanos self.now.in_all) }
    {
        let left = self.in_all.checked_sub(passed)?;
        if left.is_zero() {
            return None;
        }
        Some(left.min(self.in_one))
    }

    /// The limit after a reply, when `passed` is over: half a second more than what is left, and half a
    /// second in one call.
    pub fn behind(&self, passed: Duration) -> TimeLimit
        ensures { IsLimitBehind self.now (as_nanos passed) result }
    {
        let behind = Duration::from_millis(MOST_MILLISECONDS_BEHIND);
        TimeLimit {
            in_all: self.in_all.max(passed).saturating_add(behind),
            in_one: behind,
        }
    }
}
