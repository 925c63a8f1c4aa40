//! The bytes of a part, by their places.

ghost use Rattle.std.specs.Prelude.{◌≡◌, ◌≤◌, ◌<◌, ◌+◌, ◌*◌, ℕ, length, nat_lt, Some, None, IfOk, OnOk, count_by};
ghost use Rattle.std.specs.Prelude.{slice_set, Option, List};
ghost use Rattle.asm_defs.specs.Memory.{any_from};
ghost use Rattle.module_image.specs.Tables.{cell, put_from, is_taken, is_taken_word, words_taken};

use asm_defs::Content;
use std::alloc::{AllocError, Global};

/// How many places a part has.
const PLACES: usize = 65_536;

/// How many words lie in a part.
pub(crate) const WORDS: u32 = 32_768;

/// The bytes of a part, and how many words have one.
#[derive(Debug, Drop)]
pub struct Table {
    /// What is at each place.
    pub cells: Vec<Option<Content>>,
    /// How many words have a byte.
    pub words: u32,
    ghost size: { length cells.items ≡ 65536 },
    ghost counted: { words ≡ words_taken cells.items },
}

impl Table {
    /// A part without a byte.
    #[tactic(auto, using(crate::proofs::TableLaws::none_taken))]
    pub fn new(alloc: Global) -> Result<Table, AllocError>
        ensures { IfOk result (λ table. (p : ℕ) → cell table.cells.items p ≡ None) }
    {
        Ok(Table {
            cells: free_cells(alloc, PLACES)?,
            words: 0,
        })
    }

    /// Whether one of some bytes from a place on was put.
    pub fn any_taken(&self, from: usize, count: usize) -> bool
        requires { from + count ≤ 65536 }
        ensures { result ≡ any_from (is_taken self.now.cells.items) from count }
    {
        for place in from..from + count {
            if self.is_taken(place) {
                return true;
            }
        }
        false
    }

    /// Puts bytes, of which the first is at a place.
    pub fn put_all(&mut self, from: usize, contents: &[Content])
        requires { from + length contents.now ≤ 65536 }
        ensures { self.new.cells.items ≡ put_from self.old.cells.items from contents.now }
    {
        let mut place = from;
        let mut rest = contents;
        while let [content, others @ ..] = rest {
            self.put(place, *content);
            place += 1;
            rest = others;
        }
    }

    /// Puts a byte.
    fn put(&mut self, place: usize, content: Content)
        requires { place < 65536 }
        ensures { self.new.cells.items ≡ slice_set self.old.cells.items place (Some content) }
    {
        let words = self.words_after(place, content);
        self.cells[place] = Some(content);
        self.words = words;
    }

    /// How many words have a byte once one more is put.
    #[tactic(auto, using(crate::proofs::TableLaws::words_more, crate::proofs::TableLaws::words_same, crate::proofs::TableLaws::words_most))]
    fn words_after(&self, place: usize, content: Content) -> u32
        requires { place < 65536 }
        ensures { result ≡ words_taken (slice_set self.now.cells.items place (Some content)) }
    {
        if self.has_word(place / 2) {
            self.words
        } else {
            self.words + 1
        }
    }

    /// Whether a byte was put.
    fn is_taken(&self, place: usize) -> bool
        requires { place < 65536 }
        ensures { result ≡ is_taken self.now.cells.items place }
    {
        self.cells[place].is_some()
    }

    /// Whether a byte of a word was put.
    fn has_word(&self, word: usize) -> bool
        requires { word < 32768 }
        ensures { result ≡ is_taken_word self.now.cells.items word }
    {
        self.is_taken(2 * word) || self.is_taken(2 * word + 1)
    }
}

/// Some free cells.
fn free_cells(alloc: Global, count: usize) -> Result<Vec<Option<Content>>, AllocError>
    ensures size { IfOk result (λ cells. length cells.items ≡ count) }
    ensures free { IfOk result (λ cells. (p : ℕ) → cell cells.items p ≡ None) }
{
    vec![in alloc; None; count]
}
