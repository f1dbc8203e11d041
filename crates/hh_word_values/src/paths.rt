//! Paths, and the names of files at paths.

ghost use Rattle.std.specs.Prelude.{◌≡◌, ◌==◌};
ghost use Rattle.std.specs.List.{after_last};
ghost use Rattle.std.specs.Option.{option_copied};
ghost use Rattle.hh_word_values.specs.Values.{path_name, path_value};

use hh_names::FileName;

/// Reads a path, if the word is text (UTF-8; profile).
pub fn read_path(word: &[u8]) -> Option<&str>
    ensures { option_copied result ≡ path_value word.now }
{
    match str::from_utf8(word) {
        Ok(path) => Some(path),
        Err(_) => None,
    }
}

/// The name by which the file at a path is registered: what follows the last `/`, if that is a name
/// (profile).
#[tactic(auto, unfolding(crate::specs::Values::path_name))]
pub fn read_path_name(path: &[u8]) -> Option<FileName>
    ensures { result ≡ path_name path.now }
{
    FileName::read(behind_last(path, b'/'))
}

/// What follows the last place of a byte, or all if the text does not have it.
fn behind_last(text: &[u8], byte: u8) -> &[u8]
    ensures { result.now ≡ after_last (λ b. b == byte) text.now }
{
    let mut start = 0;
    for (place, other) in text.iter().enumerate() {
        if *other == byte {
            start = place + 1;
        }
    }
    &text[start..]
}
