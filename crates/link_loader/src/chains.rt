//! The chains of external references.

ghost use Rattle.std.specs.Prelude.{◌≡◌, ℕ, List, []};
ghost use Rattle.link_defs.specs.Chains as spec;
ghost use Rattle.link_loader.specs.Answers.{Gives};
ghost use Rattle.link_loader.specs.Holds.{KeepsNames, HoldsWords, HoldsUses, Follows, FollowsAll, value_or_0};

use crate::error::LinkError;
use crate::table::Table;
use asm_text::Name;
use std::alloc::Global;
use std::collections::BTreeMap;

/// The most places that a chain has: as many as there are addresses.
const MOST_PLACES: usize = 65536;

/// At each place of the chains the value of the name that is used there. A name that is not defined counts as 0.
pub(crate) fn follow(
    alloc: Global,
    refs: &[(Name, u16)],
    names: &BTreeMap<Name, u16>,
    words: &Table,
) -> Result<Table, LinkError>
    ensures { (defs : List (List ℕ × ℕ)) (loaded : List (ℕ × ℕ)) → KeepsNames names.now defs
        → HoldsWords words.now loaded → FollowsAll result defs (spec.uses_of loaded [] refs.now) }
{
    let mut uses = Table::new(alloc)?;
    for reference in refs {
        let value = names.get(&reference.0).copied().unwrap_or(0);
        follow_chain(words, &mut uses, value, reference.1)?;
    }
    Ok(uses)
}

/// Follows a chain from the place of its last use, and puts a value at each of its places.
fn follow_chain(words: &Table, uses: &mut Table, value: u16, last: u16) -> Result<(), LinkError>
    ensures { (defs : List (List ℕ × ℕ)) (loaded : List (ℕ × ℕ)) (name : List ℕ) (before : spec.Uses)
        → HoldsWords words.now loaded → value ≡ value_or_0 defs name → HoldsUses defs uses.old before
        → Follows result defs uses.new (spec.uses_from spec.most_places loaded name before last) }
{
    let mut place = last;
    for _ in 0..MOST_PLACES {
        if place == 0 {
            return Ok(());
        }
        let next = use_before(words, uses, place)?;
        uses.put(place, value);
        place = next;
    }
    Ok(())
}

/// The place of the use before the one at a place.
fn use_before(words: &Table, uses: &Table, place: u16) -> Result<u16, LinkError>
    ensures { (defs : List (List ℕ × ℕ)) (loaded : List (ℕ × ℕ)) (before : spec.Uses)
        → HoldsWords words.now loaded → HoldsUses defs uses.now before
        → Gives (λ next. next) result (spec.use_before loaded before place) }
{
    let Some(next) = words.get(place) else {
        return Err(LinkError::ChainOutside(place));
    };
    if uses.get(place).is_some() {
        return Err(LinkError::ChainCycle(place));
    }
    Ok(next)
}
