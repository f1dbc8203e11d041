//! What postings and settled periods add up to.

ghost use Rattle.hh_states.specs.Sums.{
  CashSumsToZero,
  ContractsSumToZero,
  DayNetsAreSums,
  EachUnitCredited,
  PostingsTotal,
  RunPostingsSumToZero,
  SettlesEachPeriod,
};

/// In each state that the machine reaches, the postings in the tables to each account sum to its day nets
/// in the latest runs of all dates.
#[tactic(auto, using(crate::proofs::PostingLaws::postings_total))]
pub fn postings_total()
    ensures { PostingsTotal }
{}

/// The settlement of a period is as a settled period is defined, if no unit occurs twice and no unit
/// credits an account twice. Its rows show the figures and the shares of the accounts, its credits are
/// those of the units in order, and its residual is the period's.
#[tactic(auto, using(crate::proofs::SettledLaws::is_settled))]
pub fn each_period_settled()
    ensures { SettlesEachPeriod }
{}

/// In each state that the machine reaches, the postings of each run in the tables sum to zero.
#[tactic(auto, using(crate::proofs::BalanceLaws::run_postings_sum_to_zero))]
pub fn run_postings_balance()
    ensures { RunPostingsSumToZero }
{}

/// The day net of an account in a run is the sum of what it pays in the Settlement Periods that the run
/// settles.
pub fn day_nets_are_sums()
    ensures { DayNetsAreSums }
{}

/// In each state that the machine reaches, contracts sum to zero in each Settlement Period of each run in
/// the tables.
#[tactic(auto, using(crate::proofs::RunSumLaws::contracts_sum_to_zero))]
pub fn contracts_sum_to_zero()
    ensures { ContractsSumToZero }
{}

/// In each state that the machine reaches, charges and shares together sum to zero in each Settlement
/// Period of each run in the tables.
#[tactic(auto, using(crate::proofs::RunSumLaws::cash_sums_to_zero))]
pub fn cash_sums_to_zero()
    ensures { CashSumsToZero }
{}

/// Each unit is credited by its reading. In each state that the machine reaches, take each run, each
/// Settlement Period of the run's date, and each unit that was registered for that date when the run was
/// ordered. The unit has a reading that counted then. The credits in the tables from the unit sum to that
/// reading's metered energy times its loss multiplier.
pub fn each_unit_credited()
    ensures { EachUnitCredited }
{}
