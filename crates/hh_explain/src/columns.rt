//! Columns of files: their names, and what their fields look like.

use std::fmt;

/// The name of the column of parties' keys.
pub(crate) const KEY: &str = "key";

/// What a price looks like.
pub(crate) const PRICE: &str = "a decimal number with at most 5 digits behind the point, from \
    -99999.99999 to 99999.99999";

const ACCOUNT: &str = "an account: a party's id, then -P or -C";

const DATE: &str = "a date YYYY-MM-DD from 2001-01-01 to 2099-12-31";

const VOLUME: &str = "a decimal number with at most 3 digits behind the point, from -10000.000 to \
    10000.000";

/// Names of columns, with commas between them.
#[derive(Clone, Copy)]
pub(crate) struct Header(pub &'static [&'static str]);

impl fmt::Display for Header {
    fn fmt<W: fmt::Write>(&self, f: &mut fmt::Formatter<W>) -> fmt::Result {
        for (place, name) in self.0.iter().enumerate() {
            f.write_str(if place == 0 { "" } else { "," })?;
            f.write_str(name)?;
        }
        Ok(())
    }
}

/// What the fields of a column look like.
pub(crate) fn form_of(name: &str) -> &'static str {
    match name {
        "party" => "a party's id: 1 to 10 capital letters or digits",
        "account" | "seller" | "buyer" => ACCOUNT,
        "unit" => "a unit's id: 1 to 16 capital letters, digits, _ or -",
        "reference" => "a reference: 1 to 20 letters, digits, _ or -",
        KEY => "a key: 8 to 64 letters or digits",
        "side" => "P (Production) or C (Consumption)",
        "interconnector" => "yes or no",
        "date" | "from" => DATE,
        "to" => "a date YYYY-MM-DD up to 2099-12-31 that isn't before from, or nothing",
        "period" => "a whole number from 1 to 50",
        "metered_mwh" | "balancing_mwh" | "mwh" | "fixed_mwh" => VOLUME,
        "tlm" => "a decimal number with at most 7 digits behind the point, from 0 to 2.0000000",
        "percent" => {
            "a decimal number with at most 5 digits behind the point, from 0 to 100.00000"
        }
        "price" => PRICE,
        _ => "a field of its column",
    }
}
