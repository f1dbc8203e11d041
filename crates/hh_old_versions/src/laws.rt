//! Laws on what version 1 has accepted. Each is the contract of a function that does nothing.

ghost use Rattle.hh_old_versions.specs.OldVersionMachine.{VersionOneGoesOn};
ghost use Rattle.hh_old_versions.specs.OldVersions.{
  HistoriesOfVersionOne,
  KeptByVersionOne,
  SameRefusals,
};

/// The office accepts each history of rows that version 1 accepted.
pub fn histories_of_version_one()
    ensures { HistoriesOfVersionOne }
{}

/// Of each history of rows that version 1 accepted: what is registered of a unit is its last row, each unit
/// has one registration, and the account of the row leads the unit on each of its dates.
pub fn kept_by_version_one()
    ensures { KeptByVersionOne }
{}

/// After such a history, the office refuses or accepts a row as version 1 did, unless that was with 39 or
/// 40.
pub fn same_refusals()
    ensures { SameRefusals }
{}

/// Each state that version 1 reaches is one that the office reaches. There each request that version 1
/// doesn't refuse with 39 or 40 has the answer of version 1, and leaves the same state.
pub fn version_one_goes_on()
    ensures { VersionOneGoesOn }
{}
