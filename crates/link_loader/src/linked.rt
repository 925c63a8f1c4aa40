//! What linking gives: words at their addresses, names and the entry.

ghost use Rattle.std.specs.Prelude.{◌≡◌, ℕ, IsTrue, IsSome};
ghost use Rattle.link_defs.specs.LinkedMemory.{is_loadable};
ghost use Rattle.link_loader.specs.Tables.{pairs_from, word_in};

use crate::table::Table;
use asm_text::Name;

/// The words of modules at their addresses, with the names that the modules define and the entry.
///
/// The words stand in a table, so that a chain takes the same time for each of its places, and in a list in order.
#[derive(Debug, Drop)]
pub struct Linked {
    /// The word at each address that has one.
    pub(crate) words: Table,
    /// The same words, each after its address, in order of address.
    pub(crate) pairs: Vec<(u16, u16)>,
    /// The names that the modules define, with their values, in order.
    pub(crate) names: Vec<(Name, u16)>,
    /// Where the program is entered.
    pub(crate) entry: u16,
    ghost listed: { pairs.items ≡ pairs_from 0 words.cells.items },
    ghost loadable: { (at : ℕ) → IsSome (word_in words.cells.items at) → IsTrue (is_loadable at) },
}
