//! Marks that are yes or no.

ghost use Rattle.std.specs.Prelude.{◌≡◌};
ghost use Rattle.hh_names.specs.Fields.{yes_no_value};

/// Whether a mark says `yes`, or `None` if it says neither `yes` nor `no` (profile).
#[tactic(auto, unfolding(crate::specs::Fields::yes_no_value))]
pub fn read_yes_no(text: &[u8]) -> Option<bool>
    ensures { result ≡ yes_no_value text.now }
{
    match text {
        b"yes" => Some(true),
        b"no" => Some(false),
        _ => None,
    }
}
