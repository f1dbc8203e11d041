//! Writing what the machine writes for a load or for a run gives the tables of the machine after it. And
//! the files in the tables are those that were accepted.

ghost use Rattle.hh_states.specs.Changes.{LoadEffect, RunEffect};
ghost use Rattle.hh_states.specs.Reads.{HoldsFiles};

/// In each state that the machine reaches, for each file that it accepts there: writing what is written
/// for the file into the tables gives the tables of the state after it.
#[tactic(auto, using(crate::proofs::ReachLaws::load_effect))]
pub fn load_effect()
    ensures { LoadEffect }
{}

/// In each state, for each run that does not exist and is not refused there: writing what is written for
/// the run into the tables gives the tables of the state after it.
#[tactic(auto, using(crate::proofs::RunLaws::run_effect))]
pub fn run_effect()
    ensures { RunEffect }
{}

/// In each state, the file of each kind and name in the tables is the one that was accepted under that kind
/// and name.
pub fn kept_files()
    ensures { HoldsFiles }
{}
