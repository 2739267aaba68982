//! The entries that a keeper was given, as a value that exists only for proofs. The value takes no
//! memory, and its methods do nothing at run time.
ghost use Rattle.std.specs.Prelude.{◌≡◌, List, [], ◌∷◌, ◌++◌};
ghost use Rattle.std.specs.Borrow.{ftrue};
ghost use Rattle.docker_model.specs.file.Change as model;
ghost use Rattle.docker_model.specs.state.Op as ops;
ghost use Rattle.cif_change.specs.Meaning.{key_meant};
ghost use Rattle.docker_join.specs.Meaning.{entry_meant};

use cif_file::Key;
use docker_join::Entry;
use std::marker::Model;

/// The entries that were given, each with its key.
#[derive(Drop)]
pub struct Given {
    pub ghost entries: { List (model.Key × ops.Entry) },
}

impl Model for Given {
    ghost also_owns = { λ _. ftrue };
}

impl Given {
    /// Returns a `Given` without entries.
    pub fn new() -> Given
        ensures { result.entries ≡ [] }
    {
        Given {}
    }

    /// Returns the entries of `_before` with one more entry appended.
    pub fn with(_before: &Given, _key: &Key, _entry: &Entry) -> Given
        ensures { result.entries ≡ _before.now.entries
            ++ (key_meant _key.now, entry_meant _entry.now) ∷ [] }
    {
        Given {}
    }
}
