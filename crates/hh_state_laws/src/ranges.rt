//! The values that the tables of the machine's states can have.

ghost use Rattle.hh_states.specs.Ranges.{KeysNeverMeet, ReachedFiles};

/// In each state that the machine reaches, each accepted file has a name in its grammar, and no more bytes
/// and rows than it may have.
pub fn accepted_files_in_range()
    ensures { ReachedFiles }
{}

/// In each state that the machine reaches, no party is registered with the operator's key.
pub fn keys_never_meet()
    ensures { KeysNeverMeet }
{}
