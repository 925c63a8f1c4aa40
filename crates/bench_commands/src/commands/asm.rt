//! `asm`: the object text of an assembler source.

ghost use Rattle.std.specs.Prelude.{◌≡◌, ◌≤◌, length, Ok, IfOk};
ghost use Rattle.object_defs.specs.Writing.{written_lines};
ghost use Rattle.object_tags.specs.Lines.{line_bytes};
ghost use Rattle.object_tags.specs.Seen.{model_of_module};
ghost use Rattle.asm_defs.specs.Modules.{module_of_source};
ghost use Rattle.report_defs.specs.Report as spec;
ghost use Rattle.reports.specs.Answers.{answer, WantsMemory, Reported};

use asm_core::{assemble, modules_have_texts};
use object_tags::{Module, ObjectLine, write_lines};
use report_defs::Command;
use reports::{CommandError, Report};
use std::alloc::{AllocError, Global};

/// The object text of the module of an assembler source, or its first refused line.
pub(crate) fn asm(alloc: Global, input: &[u8]) -> Result<Report, CommandError>
    requires { length input.now ≤ spec.largest_input }
    ensures { Reported (spec.AcceptedReport Command.Asm input.now) WantsMemory (answer result) }
{
    let module = assemble(alloc, input)?;
    Ok(Report::Object(lines_of(alloc, input, &module)?))
}

/// The lines of the object text of a source's module.
fn lines_of(alloc: Global, source: &[u8], module: &Module) -> Result<Vec<ObjectLine>, AllocError>
    requires { module_of_source source.now ≡ Ok (model_of_module «module».now) }
    ensures { IfOk result (λ lines. line_bytes lines.items ≡ written_lines (model_of_module «module».now)) }
{
    modules_have_texts();
    write_lines(alloc, module)
}
