//! What becomes of an accepted row.

ghost use Rattle.std.specs.Prelude.{◌≡◌};
ghost use Rattle.hh_rules.specs.Effects.{row_done};

/// What became of an accepted row.
#[derive(Clone, Copy, Debug, PartialEq, Eq)]
pub enum RowDone {
    /// The row counts.
    Applied {
        /// Whether the row is the first of its reference, and so fixes its seller and buyer.
        fixes_reference: bool,
    },
    /// The row came at its deadline or later. It has no effect on its Settlement Period.
    Late {
        /// Whether the row is the first of its reference, and so fixes its seller and buyer.
        fixes_reference: bool,
    },
}

impl RowDone {
    /// What becomes of an accepted row, by whether it is in time and whether it fixes its reference.
    pub(crate) fn of(in_time: bool, fixes_reference: bool) -> RowDone
        ensures { result ≡ row_done in_time fixes_reference }
    {
        if in_time {
            RowDone::Applied { fixes_reference }
        } else {
            RowDone::Late { fixes_reference }
        }
    }
}
