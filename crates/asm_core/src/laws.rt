//! Laws of the definitions that the contracts of this crate cite.

ghost use Rattle.asm_core.specs.Laws.{ModulesHaveTexts};

/// The module of a source has a text: its words are at even places, and it passes no limit of object text.
pub fn modules_have_texts()
    ensures { ModulesHaveTexts }
{}
