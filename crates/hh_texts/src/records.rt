//! Records of bytes in memory.

ghost use Rattle.std.specs.Prelude.{◌≡◌, ◌∷◌, [], IfOk, MatchBool};
ghost use Rattle.csv.specs.Records.{fields_of};
ghost use Rattle.hh_texts.specs.Records.{IsReading, left_of, records_of};

use csv::{ByteRecord, Reader, ReaderBuilder};
use std::alloc::{AllocError, Global};

/// A reader of the records of these bytes. Records may have any number of fields.
pub fn records_in(alloc: Global, bytes: &[u8]) -> Reader<&[u8]>
    ensures reading { IsReading result }
    ensures all { left_of result ≡ records_of bytes.now }
{
    ReaderBuilder::new()
        .has_headers(false)
        .flexible(true)
        .from_reader(alloc, bytes)
}

/// Reads the next record into `fields`, and answers whether there was one.
pub fn next_record(reader: &mut Reader<&[u8]>, fields: &mut ByteRecord) -> Result<bool, AllocError>
    requires { IsReading reader.old }
    ensures reading { IfOk result (λ found. IsReading reader.new) }
    ensures record { IfOk result (λ found. MatchBool found
        (left_of reader.old ≡ fields_of fields.new ∷ left_of reader.new)
        (left_of reader.old ≡ [])) }
{
    let Ok(found) = reader.read_byte_record(fields) else {
        return Err(AllocError);
    };
    Ok(found)
}
