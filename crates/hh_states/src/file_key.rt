//! The keys of files: the kind and the name under which a file is kept.

ghost use Rattle.std.specs.Prelude.{◌≡◌};
ghost use Rattle.std.specs.Cmp.{partial_order_from_own_ties};
ghost use Rattle.std.specs.Cmp.Rules.{comparing};
ghost use Rattle.std.specs.Ordering.{as_partial_cmp, eq_by_cmp};
ghost use Rattle.std.proofs.Common.{rules};
ghost use Rattle.hh_states.specs.States.{file_key_cmp};

use hh_rules::{FileKind, FileName};
use std::cmp::Ordering;

/// The kind and the name under which a file is kept. Keys are ordered by the bytes of the word that names
/// the kind, then by those of the name.
#[derive(Clone, Copy, Debug)]
pub struct FileKey {
    pub kind: FileKind,
    pub name: FileName,
}

impl PartialEq for FileKey {
    ghost eq = { eq_by_cmp file_key_cmp };

    ghost laws = { Prim.search (comparing, rules) };

    fn eq(&self, other: &FileKey) -> bool {
        self.cmp(other).is_eq()
    }
}

impl Eq for FileKey {
    ghost laws = { Prim.search (comparing, rules) };
}

impl Ord for FileKey {
    ghost cmp = { file_key_cmp };

    ghost total = { Prim.search (comparing, rules) };

    ghost matches_partial_cmp = { Prim.search (comparing, rules) };

    ghost matches_eq = { Prim.search (comparing, rules) };

    fn cmp(&self, other: &FileKey) -> Ordering {
        let word = self.kind.word().as_bytes();
        let other_word = other.kind.word().as_bytes();
        match word.cmp(&other_word) {
            Ordering::Equal => self.name.cmp(&other.name),
            unequal => unequal,
        }
    }
}

impl PartialOrd for FileKey {
    ghost partial_cmp = { as_partial_cmp file_key_cmp };

    ghost laws = { partial_order_from_own_ties (Prim.search (comparing, rules)) (Prim.search (comparing, rules)) };

    fn partial_cmp(&self, other: &FileKey) -> Option<Ordering> {
        Some(self.cmp(other))
    }
}
