//! Laws on the text of reports so far. Each is a clause of a function that does nothing.

ghost use Rattle.hh_reports.specs.Beginnings.{BalancesGoOn, DayGoesOn, ResultsGoOn};

/// The text of a report after some rows begins the report of these rows and later ones.
pub fn reports_go_on()
    ensures results { ResultsGoOn }
    ensures balances { BalancesGoOn }
    ensures day { DayGoesOn }
{}
