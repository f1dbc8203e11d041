//! The text that tells a refusal.

ghost use Rattle.std.specs.Prelude.{◌≡◌, Some};
ghost use Rattle.std.specs.Fmt.{DisplaysOnOk};
ghost use Rattle.hh_names.specs.FaultText.{fault_text, number_place, refusal_head, refusal_places, unit_place};

use crate::fault::Fault;
use crate::word::UnitId;
use std::error::Error;
use std::fmt;

/// The text is `refused <number> <name>`, followed by the refusal's places.
impl fmt::Display for Fault {
    ghost output = { λ fault. Some (fault_text fault) };

    fn fmt<W: fmt::Write>(&self, f: &mut fmt::Formatter<W>) -> fmt::Result {
        write_head(f, self)?;
        write_places(f, self)
    }
}

impl Error for Fault {}

/// The number and the name of a refusal.
fn write_head<W: fmt::Write>(f: &mut fmt::Formatter<W>, fault: &Fault) -> fmt::Result
    ensures { DisplaysOnOk W.write_str_gives f.old result (Some (refusal_head fault.now)) f.new }
{
    let (number, name) = (fault.refusal.number(), fault.refusal.name());
    write!(f, "refused {number} {name}")
}

/// The row, the column, the unit and the period, if the refusal has them.
fn write_places<W: fmt::Write>(f: &mut fmt::Formatter<W>, fault: &Fault) -> fmt::Result
    ensures { DisplaysOnOk W.write_str_gives f.old result (Some (refusal_places fault.now)) f.new }
{
    write_number(f, " row ", fault.row)?;
    write_number(f, " column ", fault.column)?;
    write_unit(f, fault.unit)?;
    write_number(
        f,
        " period ",
        fault.period.map(|period| u32::from(period.number())),
    )
}

/// A number behind its word, if there is one.
fn write_number<W: fmt::Write>(
    f: &mut fmt::Formatter<W>,
    word: &str,
    number: Option<u32>,
) -> fmt::Result
    ensures { DisplaysOnOk W.write_str_gives f.old result
        (Some (number_place word.now number)) f.new }
{
    match number {
        Some(number) => write!(f, "{word}{number}"),
        None => Ok(()),
    }
}

/// A unit's id behind its word, if there is one.
fn write_unit<W: fmt::Write>(f: &mut fmt::Formatter<W>, unit: Option<UnitId>) -> fmt::Result
    ensures { DisplaysOnOk W.write_str_gives f.old result (Some (unit_place unit)) f.new }
{
    match unit {
        Some(unit) => write!(f, " unit {}", unit.as_str()),
        None => Ok(()),
    }
}
