//! What a run posts.

use hh_names::{Account, Pence};

/// What a run posts to an account: pence, positive if the account pays more than by the run of the
/// date before. A run never posts 0 (profile).
#[derive(Clone, Copy, Debug, PartialEq, Eq)]
pub struct Posting {
    pub account: Account,
    pub pence: Pence,
}
