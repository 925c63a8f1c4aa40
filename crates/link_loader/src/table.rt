//! Words by their addresses.

ghost use Rattle.std.specs.Prelude.{◌≡◌, ℕ, ◌==◌, replicate, if◌then◌else◌, length, Some, None, IfOk};
ghost use Rattle.link_loader.specs.Tables.{word_in, pairs_from, replaced};

use std::alloc::{AllocError, Global};

/// The addresses, from 0 to 65,535.
const ADDRESSES: usize = 65536;

/// At each address a word, or none.
#[derive(Debug, Drop)]
pub(crate) struct Table {
    cells: Vec<Option<u16>>,
    ghost size: { length cells.items ≡ 65536 },
}

impl Table {
    /// No word anywhere.
    pub(crate) fn new(alloc: Global) -> Result<Table, AllocError>
        ensures { IfOk result (λ table. (at : ℕ) → word_in table.cells.items at ≡ None) }
    {
        Ok(Table {
            cells: no_words(alloc, ADDRESSES)?,
        })
    }

    /// The word at an address, if there is one.
    pub(crate) fn get(&self, at: u16) -> Option<u16>
        ensures { result ≡ word_in self.now.cells.items at }
    {
        self.cells[usize::from(at)]
    }

    /// The addresses that have a word, each with its word, in order.
    pub(crate) fn pairs(&self, alloc: Global) -> Result<Vec<(u16, u16)>, AllocError>
        ensures { IfOk result (λ pairs. pairs.items ≡ pairs_from 0 self.now.cells.items) }
    {
        let mut pairs = Vec::new(alloc);
        for at in 0..ADDRESSES {
            let address = at as u16;
            if let Some(word) = self.get(address) {
                pairs.push((address, word))?;
            }
        }
        Ok(pairs)
    }

    /// Puts the words of another table in the place of those that are at their addresses.
    pub(crate) fn replace(&mut self, others: &Table)
        ensures { (at : ℕ) → word_in self.new.cells.items at
            ≡ replaced (word_in self.old.cells.items at) (word_in others.now.cells.items at) }
    {
        for at in 0..ADDRESSES {
            let address = at as u16;
            if self.get(address).is_some() {
                if let Some(word) = others.get(address) {
                    self.put(address, word);
                }
            }
        }
    }

    /// Puts a word at an address, in the place of one that is there.
    pub(crate) fn put(&mut self, at: u16, word: u16)
        ensures { (q : ℕ) → word_in self.new.cells.items q
            ≡ (if q == at then Some word else word_in self.old.cells.items q) }
    {
        self.cells[usize::from(at)] = Some(word);
    }
}

/// So many places without a word.
fn no_words(alloc: Global, count: usize) -> Result<Vec<Option<u16>>, AllocError>
    ensures { IfOk result (λ cells. cells.items ≡ replicate count None) }
{
    vec![in alloc; None; count]
}
