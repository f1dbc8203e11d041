//! What people are told about an office, beside the replies to requests.

ghost use Rattle.std.specs.Prelude.{◌≡◌, IfOk, OnOk};
ghost use Rattle.hh_store.specs.Crashes.{AddsNothing};
ghost use Rattle.hh_store.specs.Reached.{AreReached};
ghost use Rattle.hh_store.specs.StoreFaults.{CountsRefusal};
ghost use Rattle.hh_office.specs.Views.{IsSure};

use crate::office::Office;
use hh_rows::Settings;
use hh_store::{StoreFault, Tables};
use hh_time::{Day, SettlementDate};

impl<'z, T: Tables> Office<'z, T> {
    /// The settings that the office was made with. The office stays as it is.
    ///
    /// # Errors
    ///
    /// Memory was refused, or the store refuses for another reason.
    pub fn settings(&mut self) -> Result<Settings, StoreFault>
        ensures value { IsSure T.is_open self.new
            → IfOk result (λ settings. settings ≡ self.old.seen.content.settings) }
        ensures same { IsSure T.is_open self.new → self.new.seen ≡ self.old.seen }
        ensures crash { AddsNothing T.is_honest T.is_open T.may_leave
            self.old.tables self.new.tables (OnOk result) }
        ensures refusals_counted { IsSure T.is_open self.new → AreReached self.old.seen.content
            → CountsRefusal result (T.refusals self.old.tables) (T.refusals self.new.tables) }
        ensures sure { IsSure T.is_open self.new → IsSure T.is_open self.old }
    {
        self.tables.settings()
    }

    /// How many readings the units of a date lack in its Settlement Periods. It is 0 if the date has no
    /// Settlement Periods. No contract says anything about the number. The office stays as it is.
    ///
    /// # Errors
    ///
    /// As for `settings`.
    pub fn missing_readings(&mut self, date: SettlementDate) -> Result<u64, StoreFault>
        ensures same { IsSure T.is_open self.new → self.new.seen ≡ self.old.seen }
        ensures crash { AddsNothing T.is_honest T.is_open T.may_leave
            self.old.tables self.new.tables (OnOk result) }
        ensures refusals_counted { IsSure T.is_open self.new → AreReached self.old.seen.content
            → CountsRefusal result (T.refusals self.old.tables) (T.refusals self.new.tables) }
        ensures sure { IsSure T.is_open self.new → IsSure T.is_open self.old }
    {
        let Some(day) = Day::of(date, &self.zone) else {
            return Ok(0);
        };
        let found = self.tables.day_data(&day)?;
        Ok(found.missing_readings)
    }
}
