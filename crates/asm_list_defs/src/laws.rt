//! A law of the definitions.

ghost use Rattle.asm_list_defs.specs.Laws.{ListingsShowModules};

/// The listing of an accepted source shows its module: the lines in their order with their places and what they come
/// to, whose bytes are in the module at those places, and its names.
pub fn listings_show_modules()
    ensures { ListingsShowModules }
{}
