//! Where words are loaded.

ghost use Rattle.std.specs.Prelude.{◌≡◌, ◌<◌, None};
ghost use Rattle.link_defs.specs.Causes as causes;
ghost use Rattle.link_defs.specs.First.{first, refused_by};
ghost use Rattle.link_defs.specs.LinkedMemory as spec;
ghost use Rattle.link_loader.specs.Answers.{Checks};
ghost use Rattle.link_loader.specs.Holds.{Loads};

use crate::error::LinkError;
use crate::table::Table;
use std::alloc::Global;

/// Looks for the first word that is where no word may be loaded.
pub(crate) fn check_places(words: &[(u32, u16)]) -> Result<(), LinkError>
    ensures { Checks result
        (refused_by (λ word. causes.OutOfMemoryRange word.0) (first spec.is_outside words.now)) }
{
    for word in words {
        if !is_loadable(word.0) {
            return Err(LinkError::OutOfMemoryRange(word.0));
        }
    }
    Ok(())
}

/// Whether a word may be loaded at an address.
fn is_loadable(address: u32) -> bool
    ensures { result ≡ spec.is_loadable address }
{
    address % 2 == 0
        && ((0x0002..=0x3FFE).contains(&address) || (0xA000..=0xFFFE).contains(&address))
}

/// Loads words, each of which may be loaded at its address, or finds the first at an address that has one.
pub(crate) fn load(alloc: Global, words: &[(u32, u16)]) -> Result<Table, LinkError>
    requires { first spec.is_outside words.now ≡ None }
    ensures { Loads result words.now }
{
    let mut table = Table::new(alloc)?;
    for word in words {
        let address = word.0 as u16;
        if table.get(address).is_some() {
            return Err(LinkError::Overlap(address));
        }
        table.put(address, word.1);
    }
    Ok(table)
}
