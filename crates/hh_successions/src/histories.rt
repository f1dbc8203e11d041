//! Laws on what accepted rows make of units. Each is the contract of a function that does nothing.

ghost use Rattle.hh_rules.specs.Lateness.{Timetable};
ghost use Rattle.hh_successions.specs.RegistrationHistory.{
  LeadsLookBack,
  LeadsStay,
  LedByAnother,
  MarksAlike,
  MarksStay,
  RegistersRowByRow,
  SuccessionsAloneMoveLeads,
  UnitsLookBack,
};
ghost use Rattle.hh_successions.specs.RowRules.{office_rule};

/// What is registered of units after one more row is what the row makes of what was registered. The row
/// may be refused or not.
pub fn registers_row_by_row()
    ensures { RegistersRowByRow }
{}

/// For accepted rows, the account that leads a unit on a date by the unit's registrations is the one that
/// looking back over all rows finds: that of the last row of the unit whose range holds the date.
pub fn leads_look_back()
    ensures { (timetable : Timetable) → LeadsLookBack office_rule timetable }
{}

/// For accepted rows, the range of a unit holds exactly the dates that a row of the unit holds.
pub fn units_look_back()
    ensures { (timetable : Timetable) → UnitsLookBack office_rule timetable }
{}

/// An accepted row changes who leads a unit on none but its own dates.
pub fn leads_stay()
    ensures { (timetable : Timetable) → LeadsStay office_rule timetable }
{}

/// An accepted row changes who leads a unit on a date on which the unit was led only if the row is a
/// succession of the unit and holds the date.
pub fn successions_alone_move_leads()
    ensures { (timetable : Timetable) → SuccessionsAloneMoveLeads office_rule timetable }
{}

/// For accepted rows, each row of a unit has the unit's mark.
pub fn marks_alike()
    ensures { (timetable : Timetable) → MarksAlike office_rule timetable }
{}

/// An accepted row leaves the mark of each known unit as it is.
pub fn marks_stay()
    ensures { (timetable : Timetable) → MarksStay office_rule timetable }
{}

/// For accepted rows, each reallocation in force is of a unit that an account leads on the date, and that
/// account is another than the one that the reallocation is to.
pub fn led_by_another()
    ensures { (timetable : Timetable) → LedByAnother office_rule timetable }
{}
