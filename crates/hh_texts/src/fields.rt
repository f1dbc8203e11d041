//! Fields of records.

ghost use Rattle.std.specs.Prelude.{◌≡◌};
ghost use Rattle.csv.specs.Records.{fields_of};
ghost use Rattle.hh_texts.specs.Fields.{field};

use csv::ByteRecord;

/// The field at a place, counted from 0, or an empty text past the last field.
pub fn field_in(fields: &ByteRecord, place: usize) -> &[u8]
    ensures { result.now ≡ field (fields_of fields.now) place }
{
    fields.get(place).unwrap_or(&[])
}
