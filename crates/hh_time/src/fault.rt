//! Why a date has no Settlement Day.

ghost use Rattle.std.specs.Prelude.{◌≡◌};

/// Why a date has no Settlement Day.
#[derive(Clone, Copy, Debug, PartialEq, Eq)]
pub enum TimeFault {
    /// The date is before 2001-01-01 or after 2099-12-31.
    OutOfRange,
    /// The day from one local midnight to the next doesn't have 46, 48 or 50 half hours.
    OddDay,
    /// Memory was refused. No call answers this so far, because none takes memory.
    Memory,
}

impl TimeFault {
    ghost use Rattle.hh_time.specs.TimeFaults.{fault_number};

    /// The number by which the fault is known, 1 to 3.
    pub fn number(self) -> u8
        ensures { result ≡ fault_number self }
    {
        match self {
            TimeFault::OutOfRange => 1,
            TimeFault::OddDay => 2,
            TimeFault::Memory => 3,
        }
    }
}
