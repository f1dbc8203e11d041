//! The sizes of the amounts and the counts of runs: they fit the types that keep them.

ghost use Rattle.hh_states.specs.Amounts.{
  BalancesWithin,
  DayNetsWithin,
  PaidWithin,
  SummariesWithin,
  TurnoversWithin,
};

/// In each state that the machine reaches, the turnover of each account in each run is at most 10^14 pence:
/// twice the greatest cash in each of 50 Settlement Periods.
pub fn turnovers_within()
    ensures { TurnoversWithin }
{}

/// In each state that the machine reaches, the day net of each account in each run is at most 10^14 pence
/// in size.
pub fn day_nets_within()
    ensures { DayNetsWithin }
{}

/// In each state that the machine reaches, the sum of what each account pays by the rows of each run in the
/// tables is at most 10^14 pence in size.
pub fn paid_within()
    ensures { PaidWithin }
{}

/// In each state that the machine reaches, what the latest runs of all dates move to each account is at
/// most 3.7 * 10^18 pence in size.
pub fn balances_within()
    ensures { BalancesWithin }
{}

/// In each state that the machine reaches, the summary of each run has at most 50 Settlement Periods, 800
/// accounts and 800 postings, and a residual of at most 5 * 10^13 pence in size.
pub fn summaries_within()
    ensures { SummariesWithin }
{}
