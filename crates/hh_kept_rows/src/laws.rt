//! Laws on parts of what is registered and in force. Each is the contract of a function that does nothing.

ghost use Rattle.hh_kept_rows.specs.DayBeside.{ReadByWhatIsBeside};
ghost use Rattle.hh_kept_rows.specs.DayRows.{ContractsByTheirRows, PartsOfParts};

/// The contracts of an account on a date are the same by all that is in force as by a part that has the
/// contracts of the date.
pub fn contracts_by_their_rows()
    ensures { ContractsByTheirRows }
{}

/// A part of a part that serves for some rows serves for them.
pub fn parts_of_parts()
    ensures { PartsOfParts }
{}

/// If what is kept beside the rows of a date agrees with the tables: what is read of a Settlement Day from
/// the rows of its date and from what is kept beside them is what is read of it from all tables.
pub fn read_by_what_is_beside()
    ensures { ReadByWhatIsBeside }
{}
