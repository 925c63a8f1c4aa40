//! A source as a program.

ghost use Rattle.std.specs.Prelude.{◌≡◌, ◌<◌, ◌^◌, length};
ghost use Rattle.gpl_source_defs.specs.Programs.{program_of_source};
ghost use Rattle.gpl_asm.specs.Finishing.{GivesProgram};

use crate::error::GplError;
use crate::finish::GplProgram;
use crate::lines::GplLines;
use asm_text::{lines, split_line};
use std::alloc::Global;

/// Assembles a GPL source of fewer than 2^32 bytes. Lines after END are not read.
///
/// # Errors
/// `At` carries the first line that the first checks refuse, else the first that the second checks refuse, and comes
/// exactly where there is one. `Memory` means that memory ran out.
pub fn gpl_assemble(alloc: Global, text: &[u8]) -> Result<GplProgram, GplError>
    requires { length text.now < 2 ^ 32 }
    ensures { GivesProgram result (program_of_source text.now) }
{
    let mut builder = GplLines::new(alloc)?;
    for line in lines(text) {
        builder.take(&split_line(&text[line.span.start..line.span.end]))?;
        if builder.ended {
            break;
        }
    }
    builder.program()
}
