//! Kinds of file.

ghost use Rattle.std.specs.Prelude.{◌≡◌};
ghost use Rattle.hh_rows.specs.Kinds.{kind_value, kind_word};

/// The kinds of file, by what their rows are (profile).
#[derive(Clone, Copy, Debug, PartialEq, Eq)]
pub enum FileKind {
    Parties,
    Units,
    Meters,
    Prices,
    Contracts,
    Reallocations,
}

impl FileKind {
    /// The kind that a word names: `parties`, `units`, `meters`, `prices`, `contracts` or
    /// `reallocations`.
    #[tactic(auto, unfolding(crate::specs::Kinds::kind_value))]
    pub fn read(text: &[u8]) -> Option<FileKind>
        ensures { result ≡ kind_value text.now }
    {
        if text == b"parties".as_slice() {
            Some(FileKind::Parties)
        } else if text == b"units".as_slice() {
            Some(FileKind::Units)
        } else if text == b"meters".as_slice() {
            Some(FileKind::Meters)
        } else if text == b"prices".as_slice() {
            Some(FileKind::Prices)
        } else if text == b"contracts".as_slice() {
            Some(FileKind::Contracts)
        } else if text == b"reallocations".as_slice() {
            Some(FileKind::Reallocations)
        } else {
            None
        }
    }

    /// The word that names the kind.
    pub fn word(self) -> &'static str
        ensures { result.now ≡ kind_word self }
    {
        match self {
            FileKind::Parties => "parties",
            FileKind::Units => "units",
            FileKind::Meters => "meters",
            FileKind::Prices => "prices",
            FileKind::Contracts => "contracts",
            FileKind::Reallocations => "reallocations",
        }
    }
}
