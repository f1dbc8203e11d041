//! The options that are removed from the words before `clap` reads them.

ghost use Rattle.std.specs.Prelude.{◌≡◌, ◌++◌, ◌∷◌, [], IfOk, OnOk, false, map, string_bytes, true};
ghost use Rattle.std.specs.Str.{bytes_eq};
ghost use Rattle.hh_words.specs.Options.{asks_explain, asks_strict, has_option, is_script, is_taken, without, words_left};
ghost use Rattle.hh_words.specs.PlainWords.{has_no_option};

use std::alloc::{AllocError, Global};

/// What the options that are removed from the words ask for.
#[derive(Clone, Copy, Debug, PartialEq, Eq)]
pub struct Options {
    /// Whether refusals are explained.
    pub explain: bool,
    /// Whether a script stops at the first line that is refused or fails.
    pub strict: bool,
}

/// Removes `--explain` from a line of words, which begins with the program's own name, and `--strict` if
/// the command is `script`. From a word `--` on, all words are kept.
pub fn take_options(alloc: Global, words: &[String]) -> Result<(Options, Vec<String>), AllocError>
    ensures explain { IfOk result (λ taken.
        taken.0.explain ≡ asks_explain (map string_bytes words.now)) }
    ensures strict { IfOk result (λ taken.
        taken.0.strict ≡ asks_strict (map string_bytes words.now)) }
    ensures words { IfOk result (λ taken.
        map string_bytes taken.1.items ≡ words_left (map string_bytes words.now)) }

    // Words without these options are kept as they are.
    ensures plain { has_no_option (map string_bytes words.now) ≡ true → IfOk result (λ taken.
        (taken.0.explain ≡ false) × (taken.0.strict ≡ false)
        × (map string_bytes taken.1.items ≡ map string_bytes words.now)) }
{
    let mut left = Vec::new(alloc);
    let Some((name, rest)) = words.split_first() else {
        return Ok((
            Options {
                explain: false,
                strict: false,
            },
            left,
        ));
    };
    let script = is_script(rest);
    let options = Options {
        explain: has_option(rest, "--explain"),
        strict: script && has_option(rest, "--strict"),
    };
    push_word(alloc, &mut left, name.as_str())?;
    push_without(alloc, &mut left, rest, script)?;
    Ok((options, left))
}

/// Whether the command is `script`, given the words after the program's own name.
fn is_script(words: &[String]) -> bool
    ensures { result ≡ is_script (map string_bytes words.now) }
{
    let mut rest = words;
    while let Some((word, behind)) = rest.split_first() {
        if word.as_str() != "--explain" {
            return word.as_str() == "script";
        }
        rest = behind;
    }
    false
}

/// Whether words include an option before a word `--`.
fn has_option(words: &[String], option: &str) -> bool
    ensures { result ≡ has_option (λ word. bytes_eq word option.now) (map string_bytes words.now) }
{
    let mut rest = words;
    while let Some((word, behind)) = rest.split_first() {
        if word.as_str() == "--" {
            return false;
        }
        if word.as_str() == option {
            return true;
        }
        rest = behind;
    }
    false
}

/// Adds the words, except for those that are removed.
fn push_without(
    alloc: Global,
    left: &mut Vec<String>,
    words: &[String],
    script: bool,
) -> Result<(), AllocError>
    ensures { OnOk result (map string_bytes left.new.items ≡ map string_bytes left.old.items
        ++ without (is_taken script) (map string_bytes words.now)) }
{
    let mut rest = words;
    while let Some((word, behind)) = rest.split_first() {
        if word.as_str() == "--" {
            return push_all(alloc, left, rest);
        }
        if !is_taken(word.as_str(), script) {
            push_word(alloc, left, word.as_str())?;
        }
        rest = behind;
    }
    Ok(())
}

/// Whether a word is removed that comes before any word `--`.
fn is_taken(word: &str, script: bool) -> bool
    ensures { result ≡ is_taken script word.now }
{
    word == "--explain" || (script && word == "--strict")
}

/// Adds words as they are.
pub(crate) fn push_all(
    alloc: Global,
    left: &mut Vec<String>,
    words: &[String],
) -> Result<(), AllocError>
    ensures { OnOk result (map string_bytes left.new.items
        ≡ map string_bytes left.old.items ++ map string_bytes words.now) }
{
    for word in words {
        push_word(alloc, left, word.as_str())?;
    }
    Ok(())
}

/// Adds a word as it is.
pub(crate) fn push_word(alloc: Global, left: &mut Vec<String>, word: &str) -> Result<(), AllocError>
    ensures { OnOk result (map string_bytes left.new.items
        ≡ map string_bytes left.old.items ++ word.now ∷ []) }
{
    left.push(String::from_str(alloc, word)?)?;
    Ok(())
}
