//! The law of the definitions that the contracts of this crate cite.

ghost use Rattle.object_defs.specs.Laws.{WrittenModulesAreRead};

/// The written text of a module reads as that module alone.
pub fn written_modules_are_read()
    ensures { WrittenModulesAreRead }
{}
