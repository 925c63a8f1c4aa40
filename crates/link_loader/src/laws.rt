//! Laws of the definitions that the contracts of this crate cite.

ghost use Rattle.link_defs.specs.Laws.{PlacedWordsAreHeld, ChainsAreFollowed};

/// Linked memory has a word exactly where a module places one: that word, but at a use of a REF name the value of its
/// DEF.
pub fn placed_words_are_held()
    ensures { PlacedWordsAreHeld }
{}

/// A chain has the places that are reached from its last use.
pub fn chains_are_followed()
    ensures { ChainsAreFollowed }
{}
