//! What is registered and in force fits together, and so does what each Settlement Period is settled
//! from.

ghost use Rattle.hh_states.specs.Readiness.{PeriodsReady};
ghost use Rattle.hh_states.specs.Soundness.{ConsistentStates, SoundStates};

/// What is registered and in force fits together, however the files came. In each state that the
/// machine reaches there are no more parties and units than there may be. Each unit's range lies
/// inside its lead party's. Each contract has two counterparties that are effective on its date. Each
/// reallocation is to a subsidiary that is effective. At most 100 percent of each unit is in force in a
/// Settlement Period. Each reading is of a unit that is effective on its date.
pub fn consistent_states()
    ensures { ConsistentStates }
{}

/// In each state that the machine reaches, what is registered and in force is sound. So tables in memory
/// with such a state give a register unless memory is refused.
pub fn sound_states()
    ensures { SoundStates }
{}

/// What each Settlement Period is settled from fits together. In each state that the machine reaches,
/// the accounts of its date are in order, and each lead, subsidiary, seller and buyer is among them. No
/// unit occurs twice, has more subsidiaries than there may be, or credits an account twice.
pub fn periods_ready()
    ensures { PeriodsReady }
{}
