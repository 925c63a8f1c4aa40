//! Modules are linked: placed one after the other, and each use of a name is made its value.

ghost use Rattle.std.specs.Prelude.{◌≡◌, ◌≤◌, vec_len};
ghost use Rattle.link_defs.specs.LinkedMemory as spec;
ghost use Rattle.link_loader.specs.Answers.{Gives};
ghost use Rattle.link_loader.specs.Parts.{model_of_modules};
ghost use Rattle.link_loader.specs.View.{model_of_linked};

use crate::chains::follow;
use crate::error::LinkError;
use crate::linked::Linked;
use crate::names::{check_names, define};
use crate::parts::Parts;
use crate::places::{check_places, load};
use object_tags::Module;
use std::alloc::Global;

/// Places up to 1,024 modules in memory, one after the other, and links them: every use of a REF name becomes the
/// value of its DEF.
///
/// # Errors
/// The causes come in the order of `LinkError`, each for all modules before the next. Of one cause the first place in
/// the order of the modules and of their lists is returned. `Memory` means that memory ran out.
pub fn link(alloc: Global, modules: &Vec<Module>) -> Result<Linked, LinkError>
    requires { vec_len modules.now ≤ 1024 }
    ensures { Gives model_of_linked result (spec.linked (model_of_modules modules.now.items)) }
{
    link_parts(alloc, Parts::of(alloc, modules)?)
}

/// Links what modules say.
fn link_parts(alloc: Global, parts: Parts) -> Result<Linked, LinkError>
    ensures { Gives model_of_linked result
        (spec.linked_parts parts.defs.items parts.words.items parts.refs.items parts.entries.items) }
{
    let names = define(alloc, parts.defs.as_slice())?;
    check_places(parts.words.as_slice())?;
    let mut words = load(alloc, parts.words.as_slice())?;
    let uses = follow(alloc, parts.refs.as_slice(), &names, &words)?;
    check_names(&names, parts.refs.as_slice())?;
    let entry = first_entry(parts.entries.as_slice())?;
    words.replace(&uses);
    let pairs = words.pairs(alloc)?;
    Ok(Linked {
        words,
        pairs,
        names: parts.defs,
        entry,
    })
}

/// The entry of the first module that has one.
fn first_entry(entries: &[u16]) -> Result<u16, LinkError>
    ensures { Gives (λ entry. entry) result (spec.first_entry entries.now) }
{
    match entries {
        [entry, ..] => Ok(*entry),
        [] => Err(LinkError::NoEntry),
    }
}
