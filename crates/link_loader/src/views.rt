//! What linked memory shows.

ghost use Rattle.std.specs.Prelude.{◌≡◌, ◌<◌, IsTrue, Some};
ghost use Rattle.std.specs.List.{slice_get};
ghost use Rattle.std.specs.FinMap.{get, len, entries};
ghost use Rattle.link_defs.specs.LinkedMemory.{is_loadable};
ghost use Rattle.link_loader.specs.View.{model_of_linked};

use crate::linked::Linked;
use asm_text::Name;

impl Linked {
    /// The word at an address, or `None` where none is loaded.
    pub fn word_at(&self, at: u16) -> Option<u16>
        ensures { result ≡ get (model_of_linked self.now).words at }
    {
        self.words.get(at)
    }

    /// The address at which the program is entered.
    pub fn entry(&self) -> u16
        ensures { result ≡ (model_of_linked self.now).entry }
    {
        self.entry
    }

    /// The names that the modules define, each with its value, in the order of the modules and of their lists.
    pub fn names(&self) -> &Vec<(Name, u16)>
        ensures { result.now.items ≡ (model_of_linked self.now).names }
    {
        &self.names
    }

    /// How many words are loaded.
    pub fn len(&self) -> usize
        ensures { result ≡ len (model_of_linked self.now).words }
    {
        self.pairs.len()
    }

    /// An address and the word there, by their number in order of address, from 0.
    pub fn pair(&self, index: usize) -> (u16, u16)
        requires { index < len (model_of_linked self.now).words }
        ensures pair { slice_get (entries (model_of_linked self.now).words) index ≡ Some result }
        ensures loadable { IsTrue (is_loadable result.0) }
    {
        self.pairs[index]
    }
}
