//! What becomes of a run that is asked for.

/// What becomes of a run that is asked for.
#[derive(Clone, Copy, Debug, PartialEq, Eq)]
pub enum NextRun {
    /// The date has no run of the kind, and may have one.
    New,
    /// The date has a run of the kind, which is kept.
    Kept,
}
