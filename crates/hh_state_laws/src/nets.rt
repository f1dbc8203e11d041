//! A Settlement Period settled by the net volumes of its accounts.

ghost use Rattle.hh_states.specs.Nets.{NetsSettleAlike, NetsSumToZero, NettedAreReady};

/// A period has the same settlement by the contract volumes in force as by the net volumes of its accounts:
/// the same rows, credits and residual. It passes a limit by both or by neither. The net volumes sum to
/// zero if each seller and buyer is one of the accounts. So the period may be settled by them if each is
/// at most 100,000,000 MWh in size.
#[tactic(auto, using(crate::proofs::NetLaws::nets_settle_alike, crate::proofs::NetLaws::nets_sum_to_zero, crate::proofs::NetLaws::netted_are_ready))]
pub fn nets_settle_alike()
    ensures alike { NetsSettleAlike }
    ensures even { NetsSumToZero }
    ensures ready { NettedAreReady }
{}
