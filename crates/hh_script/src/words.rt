//! The words of a line.

ghost use Rattle.std.specs.Prelude.{◌≡◌, ◌<◌, ◌==◌, [], ◌∷◌, length, position, IfNone, IfSome};
ghost use Rattle.hh_script.specs.Words.{words_of};

/// The first place of a byte in a text.
pub(crate) fn place_of(text: &[u8], byte: u8) -> Option<usize>
    ensures { result ≡ position (λ b. b == byte) text.now }
{
    text.iter().position(|other| *other == byte)
}

/// The first word of several and what follows the blank after it, or `None` if there is only one word.
pub(crate) fn split_word(text: &[u8]) -> Option<(&[u8], &[u8])>
    ensures several { IfSome result (λ parts.
        words_of text.now ≡ parts.0.now ∷ words_of parts.1.now) }
    ensures single { IfNone result (words_of text.now ≡ text.now ∷ []) }
{
    let end = place_of(text, b' ')?;
    Some((&text[..end], &text[end + 1..]))
}

/// The only word of a text, or `None` if it has several.
pub(crate) fn only_word(text: &[u8]) -> Option<&[u8]>
    ensures single { IfSome result (λ word. words_of text.now ≡ word.now ∷ []) }
    ensures several { IfNone result (1 < length (words_of text.now)) }
{
    match split_word(text) {
        Some(_) => None,
        None => Some(text),
    }
}
