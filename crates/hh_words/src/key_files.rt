//! The options that name a file with a key, instead of the key itself.

ghost use Rattle.std.specs.Prelude.{◌≡◌, ◌==◌, ◌++◌, ◌∷◌, [], IfOk, None, OnOk, map, option_map, string_bytes, true};
ghost use Rattle.std.specs.List.{before_first};
ghost use Rattle.hh_words.specs.KeyFiles.{behind, file_with_key, first_line, key_option, key_written, names_file, path_at, path_named, text_or_nothing, with_key, word_with, words_with};
ghost use Rattle.hh_words.specs.PlainWords.{has_no_option};
ghost use Rattle.hh_words.specs.steps.KeyTexts.{texts_of};

use crate::options::{push_all, push_word};
use hh_word_values::read_path;
use std::alloc::{AllocError, Global};

/// The option by which a command is given a key.
#[derive(Clone, Copy)]
struct KeyOption {
    /// The text before the key.
    key: &'static str,
    /// The option that names a file with the key.
    file: &'static str,
    /// The text before the file's path.
    path: &'static str,
}

/// The key that is shown.
const SHOWN_KEY: KeyOption = KeyOption {
    key: "--key=",
    file: "--key-file",
    path: "--key-file=",
};

/// The key of the operator of a new office.
const OPERATOR_KEY: KeyOption = KeyOption {
    key: "--operator-key=",
    file: "--operator-key-file",
    path: "--operator-key-file=",
};

/// The path of the first file with a key that a line of words names. The line begins with the program's own
/// name. `load`, `run` and `report` name such a file by `--key-file`, and `init` and `script` by
/// `--operator-key-file`. From a word `--` on, no word names one.
pub fn file_with_key(words: &[String]) -> Option<&str>
    ensures path { option_map (λ path. path.now) result
        ≡ file_with_key (map string_bytes words.now) }
    ensures plain { has_no_option (map string_bytes words.now) ≡ true → result ≡ None }
{
    let (_, rest) = words.split_first()?;
    let (command, rest) = rest.split_first()?;
    path_named(key_option(command.as_str())?, rest)
}

/// The words, with `--key=KEY` or `--operator-key=KEY` in the place of each word that names a file with a
/// key.
pub fn with_key(alloc: Global, words: &[String], key: &str) -> Result<Vec<String>, AllocError>
    ensures { IfOk result (λ keyed.
        map string_bytes keyed.items ≡ with_key key.now (map string_bytes words.now)) }
{
    let mut keyed = Vec::new(alloc);
    let Some((name, behind)) = words.split_first() else {
        return Ok(keyed);
    };
    push_word(alloc, &mut keyed, name.as_str())?;
    let Some((command, rest)) = behind.split_first() else {
        return Ok(keyed);
    };
    push_word(alloc, &mut keyed, command.as_str())?;
    match key_option(command.as_str()) {
        Some(option) => push_with(alloc, &mut keyed, rest, option, key)?,
        None => push_all(alloc, &mut keyed, rest)?,
    }
    Ok(keyed)
}

/// The key in a file: its first line, without the LF or CRLF after it. It is empty if that is not text
/// (UTF-8).
pub fn key_in_file(bytes: &[u8]) -> &str
    ensures { result.now ≡ key_written bytes.now }
{
    text_or_nothing(first_line(bytes))
}

/// The text of these bytes, or an empty text if they are not text (UTF-8).
fn text_or_nothing(bytes: &[u8]) -> &str
    ensures { result.now ≡ text_or_nothing bytes.now }
{
    match read_path(bytes) {
        Some(text) => text,
        None => "",
    }
}

/// The first line of a text.
fn first_line(bytes: &[u8]) -> &[u8]
    ensures { result.now ≡ first_line bytes.now }
{
    let line = before_line_feed(bytes);
    match line.strip_suffix(b"\r") {
        Some(line) => line,
        None => line,
    }
}

/// The bytes before the first line feed, or all if there is none.
fn before_line_feed(bytes: &[u8]) -> &[u8]
    ensures { result.now ≡ before_first (λ b. b == 10) bytes.now }
{
    let end = bytes.iter().take_while(|byte| **byte != b'\n').count();
    &bytes[..end]
}

/// The option by which a command is given a key.
fn key_option(command: &str) -> Option<KeyOption>
    ensures { option_map texts_of result ≡ key_option command.now }
{
    match command {
        "load" | "run" | "report" => Some(SHOWN_KEY),
        "init" | "script" => Some(OPERATOR_KEY),
        _ => None,
    }
}

/// The path of the first file that words name, before a word `--`.
fn path_named(option: KeyOption, words: &[String]) -> Option<&str>
    ensures { option_map (λ path. path.now) result
        ≡ path_named (texts_of option) (map string_bytes words.now) }
{
    let mut rest = words;
    while let Some((word, words_behind)) = rest.split_first() {
        if word.as_str() == "--" {
            return None;
        }
        if let Some(path) = path_at(option, word.as_str(), words_behind) {
            return Some(path);
        }
        rest = words_behind;
    }
    None
}

/// The path that a word names, by itself or together with the word after it.
fn path_at<'a>(option: KeyOption, word: &'a str, words: &'a [String]) -> Option<&'a str>
    ensures { option_map (λ path. path.now) result
        ≡ path_at (texts_of option) word.entry.now (map string_bytes words.entry.now) }
{
    match words.first() {
        Some(next) if names_file(option, word, next.as_str()) => Some(next.as_str()),
        _ => behind(option.path, word),
    }
}

/// Whether two words name a file.
fn names_file(option: KeyOption, word: &str, next: &str) -> bool
    ensures { result ≡ names_file (texts_of option) word.now next.now }
{
    word == option.file && (next == "-" || !next.starts_with("-"))
}

/// The rest of a word after a text, if it begins with that.
#[tactic(auto, using(crate::proofs::KeyFacts::behind_stripped))]
fn behind<'a>(front: &str, word: &'a str) -> Option<&'a str>
    ensures { option_map (λ text. text.now) result ≡ behind front.now word.entry.now }
{
    word.strip_prefix(front)
}

/// Adds words, with the key in the place of each file that they name.
fn push_with(
    alloc: Global,
    keyed: &mut Vec<String>,
    words: &[String],
    option: KeyOption,
    key: &str,
) -> Result<(), AllocError>
    ensures { OnOk result (map string_bytes keyed.new.items ≡ map string_bytes keyed.old.items
        ++ words_with (texts_of option) key.now (map string_bytes words.now)) }
{
    let mut rest = words;
    while let Some((word, after)) = rest.split_first() {
        let Some((next, after_next)) = after.split_first() else {
            return push_word_with(alloc, keyed, word.as_str(), option, key);
        };
        if word.as_str() == "--" {
            return push_all(alloc, keyed, rest);
        }
        if names_file(option, word.as_str(), next.as_str()) {
            push_key(alloc, keyed, option, key)?;
            rest = after_next;
        } else {
            push_word_with(alloc, keyed, word.as_str(), option, key)?;
            rest = after;
        }
    }
    Ok(())
}

/// Adds a word, or the key if the word names a file by itself.
fn push_word_with(
    alloc: Global,
    keyed: &mut Vec<String>,
    word: &str,
    option: KeyOption,
    key: &str,
) -> Result<(), AllocError>
    ensures { OnOk result (map string_bytes keyed.new.items ≡ map string_bytes keyed.old.items
        ++ word_with (texts_of option) key.now word.now ∷ []) }
{
    if behind(option.path, word).is_some() {
        push_key(alloc, keyed, option, key)
    } else {
        push_word(alloc, keyed, word)
    }
}

/// Adds a key after its option.
fn push_key(
    alloc: Global,
    keyed: &mut Vec<String>,
    option: KeyOption,
    key: &str,
) -> Result<(), AllocError>
    ensures { OnOk result (map string_bytes keyed.new.items ≡ map string_bytes keyed.old.items
        ++ (option.key.now ++ key.now) ∷ []) }
{
    let mut word = String::from_str(alloc, option.key)?;
    word.push_str(key)?;
    keyed.push(word)?;
    Ok(())
}
