//! The names that modules define and need.

ghost use Rattle.std.specs.Prelude.{◌≡◌, List, ℕ, is_some};
ghost use Rattle.std.specs.BTreeMap as tree;
ghost use Rattle.std.specs.Ordering.{nat_cmp};
ghost use Rattle.std.specs.Cmp.Lexicographic.{slice_cmp};
ghost use Rattle.link_defs.specs.Causes as causes;
ghost use Rattle.link_defs.specs.First.{first, refused_by};
ghost use Rattle.link_defs.specs.LinkedMemory as spec;
ghost use Rattle.link_loader.specs.Answers.{Checks};
ghost use Rattle.link_loader.specs.Holds.{Defines, KeepsNames};

use crate::error::LinkError;
use asm_text::Name;
use std::alloc::Global;
use std::collections::BTreeMap;

/// The names of DEFs with their values, or the first name that one before defines.
pub(crate) fn define(alloc: Global, defs: &[(Name, u16)]) -> Result<BTreeMap<Name, u16>, LinkError>
    ensures { Defines result defs.now }
{
    let mut names = BTreeMap::new(alloc);
    for def in defs {
        if names.insert(def.0, def.1)?.is_some() {
            return Err(LinkError::DuplicateDef(def.0));
        }
    }
    Ok(names)
}

/// Looks for the first name that is not defined.
pub(crate) fn check_names(
    names: &BTreeMap<Name, u16>,
    refs: &[(Name, u16)],
) -> Result<(), LinkError>
    ensures { (defs : List (List ℕ × ℕ)) → KeepsNames names.now defs → Checks result
        (refused_by (λ ref. causes.Unresolved ref.0) (first (spec.is_unresolved defs) refs.now)) }
{
    for reference in refs {
        if !is_defined(names, &reference.0) {
            return Err(LinkError::Unresolved(reference.0));
        }
    }
    Ok(())
}

/// Whether a name is defined.
fn is_defined(names: &BTreeMap<Name, u16>, name: &Name) -> bool
    ensures { result ≡ is_some (tree.get (slice_cmp nat_cmp) names.now name.now) }
{
    names.contains_key(name)
}
