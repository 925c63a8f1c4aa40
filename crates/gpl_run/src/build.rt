//! The interpreter, assembled and linked from its source.

ghost use Rattle.std.specs.Prelude.{◌≡◌, ◌∷◌, [], Ok, IfOk};
ghost use Rattle.interp_build_defs.specs.Interpreter.{IsInterpreter, SourceGivesWords};
ghost use Rattle.object_tags.specs.Seen.{model_of_module};
ghost use Rattle.link_defs.specs.LinkedMemory.{LinkedMemory, linked};
ghost use Rattle.link_loader.specs.View.{model_of_linked};

use crate::assembling::interpreter_module;
use crate::error::BuildError;
use line_table::source_gives_words;
use link_loader::{LinkError, Linked, link};
use object_tags::Module;
use std::alloc::Global;

/// Builds the interpreter: assembles its source and links the module. Its words by address are those that are shipped,
/// the first of them at >2000, and no others: that the source gives them is proved, so they are not compared.
///
/// # Errors
/// `Memory` means that memory ran out.
pub fn build_interp(alloc: Global) -> Result<Linked, BuildError>
    // the source has such a memory, whether or not it is found here
    ensures law { SourceGivesWords }
    ensures built { IfOk result (λ linked. IsInterpreter (model_of_linked linked)) }
{
    source_gives_words();
    link_module(alloc, interpreter_module(alloc)?)
}

/// The linked memory of a module that is linked where it stands alone.
fn link_module(alloc: Global, module: Module) -> Result<Linked, BuildError>
    requires { (memory : LinkedMemory) × linked (model_of_module «module» ∷ []) ≡ Ok memory }
    ensures { IfOk result (λ memory. linked (model_of_module «module» ∷ []) ≡ Ok (model_of_linked memory)) }
{
    let mut modules = Vec::new(alloc);
    modules.push(module)?;
    match link(alloc, &modules) {
        Ok(linked) => Ok(linked),
        Err(LinkError::Memory) => Err(BuildError::Memory),
        Err(_) => unreachable!(),
    }
}
