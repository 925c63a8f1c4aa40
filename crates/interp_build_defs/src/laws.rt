//! A law of the definitions. The function does nothing, and its contract is the law.

ghost use Rattle.interp_build_defs.specs.Booting.{LoadedInterpretersBoot};

/// The interpreter's linked memory, loaded with an image and an entry, is the machine on which the interpreter begins.
pub fn loaded_interpreters_boot()
    ensures { LoadedInterpretersBoot }
{}
