//! Laws: a period has only one settlement; what is written for a run is what the machine writes, and fits
//! the types that keep it; and what the tables of an office add up to.

ghost use Rattle.hh_day.specs.Headline.{ReachedConserve};
ghost use Rattle.hh_day.specs.NewRuns.{SettledInOneWay, WritesTheRun};
ghost use Rattle.hh_day.specs.RunLimits.{RunsFit, TermsReady};

use hh_state_laws::{
    cash_sums_to_zero, contracts_sum_to_zero, day_nets_are_sums, day_nets_from_results,
    each_period_settled, each_unit_credited, kept_results, nets_settle_alike, periods_ready,
    postings_total, run_postings_balance, summaries_within, turnovers_within,
};

/// A period has only one settlement, if what it is settled from fits together.
pub fn settled_in_one_way()
    ensures { SettledInOneWay }
{
    // A law for the proof. The call does nothing.
    each_period_settled();
}

/// In each state that the machine reaches, for each run that does not exist and is not refused there: what
/// is written for a new run of the settled periods of its date is what the machine writes for it.
pub fn writes_the_run()
    ensures { WritesTheRun }
{
    // Laws for the proof. The calls do nothing.
    day_nets_from_results();
    day_nets_are_sums();
}

/// In each state that the machine reaches, what the Settlement Periods of a date are settled from may be
/// settled. So `settle_day` fails there only if memory is refused.
pub fn terms_ready()
    ensures { TermsReady }
{
    // Laws for the proof. The calls do nothing.
    periods_ready();
    nets_settle_alike();
}

/// In each state that the machine reaches, for each run that does not exist and is not refused there: what
/// is written for a new run of the settled periods of its date fits the types that keep it. So `run_change`
/// fails there only if memory is refused.
pub fn runs_fit()
    ensures { RunsFit }
{
    // Laws for the proof. The calls do nothing.
    turnovers_within();
    summaries_within();
    kept_results();
    writes_the_run();
}

/// The headline sums hold for the tables of each state that the machine reaches. Each run has a row for
/// each account of its date in each Settlement Period. In each of these periods contracts sum to zero, and
/// so do charges and shares together. The credits from each unit sum exactly to its loss-adjusted metered
/// volume, by the reading that counted when the run was ordered. The postings to each account sum to what
/// it pays in the latest run of every date. The postings of each run sum to zero.
pub fn reached_conserve()
    ensures { ReachedConserve }
{
    // Laws for the proof. The calls do nothing.
    kept_results();
    contracts_sum_to_zero();
    cash_sums_to_zero();
    each_unit_credited();
    postings_total();
    day_nets_from_results();
    run_postings_balance();
}
