//! Laws on what is kept beside the tables. Each is the contract of a function that does nothing.

ghost use Rattle.hh_beside.specs.Laws.{LoadsAgree, MadeAnewAgrees, RunsAgree};

/// In each state that the machine reaches, for each load that it accepts there: what is kept beside the
/// tables agrees with them after the load, if it did before.
pub fn loads_agree()
    ensures { LoadsAgree }
{}

/// In each state that the machine reaches, for each run that it makes there: what is kept beside the tables
/// agrees with them after the run, if it did before.
pub fn runs_agree()
    ensures { RunsAgree }
{}

/// What is made anew beside tables agrees with them.
pub fn made_anew_agrees()
    ensures { MadeAnewAgrees }
{}
