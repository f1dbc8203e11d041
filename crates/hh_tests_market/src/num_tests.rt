//! What no clause says and no program shows: numbers as large as an `i64` may be, and fields between marks.

use hh_num::*;
use std::alloc::{AllocError, Global};

#[test]
fn refuses_numbers_past_an_i64(rt: HostRuntime) {
    assert!(&rt; read_fixed(b"9223372036854775.808", 3).is_none());
    assert!(&rt; read_fixed(b"-9223372036854775.809", 3).is_none());
    nearest_is_one();
}

/// The text of the least number, with ten decimals, behind another text.
fn least_behind(alloc: Global) -> Result<Vec<u8>, AllocError> {
    let mut out = Vec::from_slice(alloc, b"x=")?;
    write_fixed(i64::MIN, 10, &mut out)?;
    Ok(out)
}

/// The text of the greatest number, without decimals, behind another text.
fn greatest_behind(alloc: Global) -> Result<Vec<u8>, AllocError> {
    let mut out = Vec::from_slice(alloc, b"x=")?;
    write_fixed(i64::MAX, 0, &mut out)?;
    Ok(out)
}

/// The field of the smallest energy, behind a text.
fn field_behind(alloc: Global) -> Result<Vec<u8>, AllocError> {
    let mut out = Vec::from_slice(alloc, b"x")?;
    Ticks::of(1).write_field(b'|', 39, &mut out)?;
    Ok(out)
}

/// Whether a text was written.
fn is_text(written: Result<Vec<u8>, AllocError>, text: &[u8]) -> bool {
    written.is_ok_and(|written| written.as_slice() == text)
}

#[test]
fn writes_decimal_texts(rt: HostRuntime) {
    assert!(&rt; is_text(least_behind(rt.alloc()), b"x=-922337203.6854775808"));
    assert!(&rt; is_text(greatest_behind(rt.alloc()), b"x=9223372036854775807"));
    let field = b"x|                           0.0000000001";
    assert!(&rt; is_text(field_behind(rt.alloc()), field));
}
