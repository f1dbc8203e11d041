//! Lines that load a file.

ghost use Rattle.std.specs.Prelude.{◌≡◌, option_map};
ghost use Rattle.hh_rows.specs.Kinds.{kind_value};
ghost use Rattle.hh_word_values.specs.Values.{moment_value, path_name, path_value, shown_key_value};
ghost use Rattle.hh_script.specs.Steps.{load_from, load_of, load_value};
ghost use Rattle.hh_script.specs.Words.{words_of};

use crate::words::{only_word, split_word};
use hh_names::FileName;
use hh_rows::FileKind;
use hh_word_values::{read_moment, read_path, read_path_name, read_shown_key};

/// `load SECONDS KEY KIND PATH`: a file to be loaded (profile).
#[derive(Clone, Copy, Debug, PartialEq, Eq)]
pub struct LoadLine<'a> {
    /// The moment of the command, in seconds since 1970-01-01T00:00:00Z.
    pub moment: i64,
    /// The key that is shown, in the grammar of the operator's key or of a party's.
    pub key: &'a [u8],
    pub kind: FileKind,
    /// The path of the file.
    pub path: &'a str,
    /// The name by which the file is registered: what follows the path's last `/`.
    pub name: FileName,
}

impl<'a> LoadLine<'a> {
    /// The line with these words after `load`, if they form one.
    pub(crate) fn read(text: &'a [u8]) -> Option<LoadLine<'a>>
        ensures { option_map load_of result ≡ load_value (words_of text.entry.now) }
    {
        let (moment, text) = split_word(text)?;
        let (key, text) = split_word(text)?;
        let (kind, text) = split_word(text)?;
        LoadLine::of(moment, key, kind, only_word(text)?)
    }

    /// The line with these four words, if each is in its grammar.
    fn of(moment: &[u8], key: &'a [u8], kind: &[u8], path: &'a [u8]) -> Option<LoadLine<'a>>
        ensures { option_map load_of result ≡ load_from (moment_value moment.now)
            (shown_key_value key.entry.now) (kind_value kind.now) (path_value path.entry.now)
            (path_name path.entry.now) }
    {
        Some(LoadLine {
            moment: read_moment(moment)?,
            key: read_shown_key(key)?,
            kind: FileKind::read(kind)?,
            path: read_path(path)?,
            name: read_path_name(path)?,
        })
    }
}
