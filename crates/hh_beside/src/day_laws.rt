//! Laws on Settlement Periods that are accounted for. Each is the contract of a function that does nothing.

ghost use Rattle.hh_beside.specs.DayLaws.{UntouchedIsSettled};

/// Let days be accounted for. Take a Settlement Period of the latest run of its date that was not touched,
/// and whose accounts are those of the date now. It is as it would be settled now, and passes no limit.
pub fn untouched_is_settled()
    ensures { UntouchedIsSettled }
{}
