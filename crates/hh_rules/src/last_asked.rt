//! What the row before asked for.

ghost use Rattle.std.specs.Prelude.{◌≡◌, None};

use hh_rows::Day;

/// What rows asked for last. The next row mostly asks for the same, or for the one behind it.
#[derive(Drop)]
pub(crate) struct LastAsked {
    /// The Settlement Day, if a row asked for one.
    pub(crate) day: Option<Day>,
    /// The place of the unit of the last reading among the units. It is only the place to look at first.
    pub(crate) unit: usize,
}

impl LastAsked {
    /// Nothing was asked for yet.
    pub(crate) fn nothing() -> LastAsked
        ensures { result.day ≡ None }
    {
        LastAsked { day: None, unit: 0 }
    }
}
