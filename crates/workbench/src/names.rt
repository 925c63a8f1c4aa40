//! The names of files that `link` takes.

ghost use Rattle.std.specs.Prelude.{◌≡◌, ◌<◌, ◌≤◌, [], ◌∷◌, ◌++◌, length};

use bench_shelf::FileName;
use std::marker::Model;

/// The most files that `link` takes.
pub(crate) const MOST_FILES: usize = 16;

/// One to sixteen names of files. Contracts see their list. It is no `ArrayVec`, which wants a default value, and takes
/// no memory, so wrong words are never answered by status 5.
#[derive(Drop)]
pub(crate) struct FileNames {
    names: [FileName; MOST_FILES],
    len: usize,
}

impl Model for FileNames {
    ghost use Rattle.std.specs.Prelude.{◌≡◌, ◌≤◌, ℕ, List, length, take};

    ghost Value = { List (List ℕ) };

    ghost view = { λ n. take n.len n.names };

    ghost invariant = { λ n. (n.len ≤ 16) × (length n.names ≡ 16) };
}

impl FileNames {
    /// One name.
    pub(crate) fn one(name: FileName) -> FileNames
        ensures { result ≡ name ∷ [] }
    {
        FileNames {
            names: [name; MOST_FILES],
            len: 1,
        }
    }

    /// Appends a name to fewer than sixteen.
    pub(crate) fn push(&mut self, name: FileName)
        requires { length self.old < 16 }
        ensures { self.new ≡ self.old ++ name ∷ [] }
    {
        self.names[self.len] = name;
        self.len += 1;
    }

    /// The names.
    pub(crate) fn as_slice(&self) -> &[FileName]
        ensures names { result.now ≡ self.now }
        ensures few { length result.now ≤ 16 }
    {
        &self.names[..self.len]
    }
}
