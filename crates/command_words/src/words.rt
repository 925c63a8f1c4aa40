//! The words of a command line.

ghost use Rattle.std.specs.Prelude.{◌≡◌, [], ◌∷◌, ◌++◌, map, OnOk, OnErr};

use std::alloc::{AllocError, Global};
use std::marker::Model;

/// The words of a command line, each a list of bytes. Contracts see it as their list.
#[derive(Debug, Drop)]
pub struct Words {
    words: Vec<Vec<u8>>,
}

impl Model for Words {
    ghost use Rattle.std.specs.Prelude.{ℕ, List, map};

    ghost Value = { List (List ℕ) };

    ghost view = { λ w. map (λ word. word.items) w.words.items };
}

impl Words {
    /// No words.
    pub fn new(alloc: Global) -> Self
        ensures { result ≡ [] }
    {
        Words {
            words: Vec::new(alloc),
        }
    }

    /// Appends a word. If memory runs out, the words are as before.
    pub fn push(&mut self, word: &[u8]) -> Result<(), AllocError>
        ensures pushed { OnOk result (self.new ≡ self.old ++ word.now ∷ []) }
        ensures failed { OnErr result (self.new ≡ self.old) }
    {
        let copy = word.to_vec(*self.words.allocator())?;
        self.words.push(copy)?;
        Ok(())
    }

    /// The words.
    pub fn as_slice(&self) -> &[Vec<u8>]
        ensures { map (λ word. word.items) result.now ≡ self.now }
    {
        self.words.as_slice()
    }
}
