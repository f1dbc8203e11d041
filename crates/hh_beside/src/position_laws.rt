//! Laws on contract positions. Each is the contract of a function that does nothing.

ghost use Rattle.hh_beside.specs.PositionLaws.{KnownAreNets, KnownIsNet, MadeAnewAreWritten, PartsServe};

/// A known position is the sum of the contracts in force. An account without one counts as 0.
#[tactic(auto, using(crate::proofs::PositionLoads::known_is_net))]
pub fn known_is_net()
    ensures { KnownIsNet }
{}

/// Writing positions that are made anew from contracts into an empty table gives these positions.
#[tactic(auto, using(crate::proofs::PositionMade::made_anew_are_written))]
pub fn made_anew_are_written()
    ensures { MadeAnewAreWritten }
{}

/// In each state that the machine reaches, for right positions: if all positions of a Settlement Period's
/// accounts are known, they give the accounts' net volumes, which sum to zero.
pub fn known_are_nets()
    ensures { KnownAreNets }
{}

/// A part of the positions serves for rows if it has those of each seller and buyer of them: putting the
/// part after the rows into the whole gives the positions after the rows.
#[tactic(auto, using(crate::proofs::PositionParts::parts_serve))]
pub fn parts_serve()
    ensures { PartsServe }
{}
