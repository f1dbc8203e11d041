//! How memory devices move bytes.

ghost use Rattle.std.specs.Prelude.{◌≡◌};

use crate::device::DeviceFailed;

/// At most `piece` bytes in a call. One call fails after `until_failure` more bytes, if that is a number.
#[derive(Clone, Copy, Debug)]
pub struct Pace {
    pub piece: usize,
    pub until_failure: Option<usize>,
}

impl Pace {
    ghost use Rattle.hh_devices.specs.Pace.{moved, paced};

    /// How many of the offered bytes go in this call, or `Err` if it is the call that fails.
    pub fn step(&mut self, offered: usize) -> Result<usize, DeviceFailed>
        ensures answer { result ≡ moved self.old offered }
        ensures after { self.new ≡ paced self.old offered }
    {
        let most = offered.min(self.piece);
        match self.until_failure {
            None => Ok(most),
            Some(0) => {
                self.until_failure = None;
                Err(DeviceFailed)
            }
            Some(left) => {
                self.until_failure = Some(left.saturating_sub(most));
                Ok(most.min(left))
            }
        }
    }
}
