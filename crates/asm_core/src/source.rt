//! A source as a module.

ghost use Rattle.std.specs.Prelude.{◌≡◌, ◌<◌, ◌^◌, length};
ghost use Rattle.asm_defs.specs.Modules.{module_of_source};
ghost use Rattle.asm_core.specs.Finishing.{GivesModule};

use crate::error::AsmError;
use crate::lines::AsmLines;
use asm_text::{lines, split_line};
use object_tags::Module;
use std::alloc::Global;

/// Assembles a source of fewer than 2^32 bytes. Lines after END are not read.
///
/// # Errors
/// `At` carries the first line that the first checks refuse, else the first that the second checks refuse, and comes
/// exactly where there is one. `Memory` means that memory ran out.
pub fn assemble(alloc: Global, text: &[u8]) -> Result<Module, AsmError>
    requires { length text.now < 2 ^ 32 }
    ensures { GivesModule result (module_of_source text.now) }
{
    let mut builder = AsmLines::new(alloc);
    for line in lines(text) {
        builder.take(&split_line(&text[line.span.start..line.span.end]))?;
        if builder.ended {
            break;
        }
    }
    builder.module()
}
