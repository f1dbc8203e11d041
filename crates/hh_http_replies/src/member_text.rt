//! The texts in the bodies of replies.

ghost use Rattle.std.specs.Prelude.{◌≡◌, IfOk, IsAscii, string_bytes};
ghost use Rattle.hh_num.specs.Fixed.{fixed_text};
ghost use Rattle.hh_time.specs.DateText.{date_text};

use hh_num::{Quantity, Scaled, write_fixed};
use hh_time::SettlementDate;
use std::alloc::{AllocError, Global};

/// The text of a date.
pub(crate) fn date_text(alloc: Global, date: SettlementDate) -> Result<String, AllocError>
    ensures { IfOk result (λ text. string_bytes text ≡ date_text date) }
{
    let bytes = Vec::from_slice(alloc, &date.text())?;
    Ok(ascii_text(bytes))
}

/// The text of a scaled number, with all its decimals.
pub(crate) fn number_text<Q: Quantity>(
    alloc: Global,
    number: Scaled<Q>,
) -> Result<String, AllocError>
    ensures { IfOk result (λ text. string_bytes text ≡ fixed_text Q.decimals number) }
{
    let mut bytes = Vec::new(alloc);
    write_fixed(number.units(), Q::decimals(), &mut bytes)?;
    Ok(ascii_text(bytes))
}

/// ASCII bytes as text.
fn ascii_text(bytes: Vec<u8>) -> String
    requires { IsAscii bytes.items }
    ensures { string_bytes result ≡ bytes.items }
{
    match String::from_utf8(bytes) {
        Ok(text) => text,
        Err(_) => unreachable!(),
    }
}
