//! The modules of files of object text.

ghost use Rattle.std.specs.Prelude.{◌≡◌, ◌≤◌, ◌*◌, length, vec_len, IfOk};
ghost use Rattle.object_tags.specs.Answers.{model_of_modules};
ghost use Rattle.object_defs.specs.Reading.{read};
ghost use Rattle.report_defs.specs.LinkedFiles as spec;
ghost use Rattle.file_commands.specs.Reading.{model_of_texts};
ghost use Rattle.file_commands.specs.Modules.{GivesModules};

use crate::causes::file_tag_line;
use crate::file_text::FileText;
use object_tags::{Module, TagError, read_modules};
use reports::CommandError;
use std::alloc::Global;

/// The modules of all files, in the order of the files.
pub(crate) fn modules_of(alloc: Global, texts: &[FileText]) -> Result<Vec<Module>, CommandError>
    ensures is { GivesModules (λ modules. model_of_modules modules.items) result
        (spec.modules_of (model_of_texts texts.now)) }
    ensures few { IfOk result (λ modules. vec_len modules ≤ 64 * length texts.now) }
{
    let mut modules = Vec::new(alloc);
    for text in texts {
        match modules_in(alloc, text) {
            Ok(mut found) => modules.append(&mut found)?,
            Err(error) => return Err(error),
        }
    }
    Ok(modules)
}

/// The modules of a file.
fn modules_in(alloc: Global, text: &FileText) -> Result<Vec<Module>, CommandError>
    ensures is { GivesModules (λ modules. model_of_modules modules.items) result
        (spec.in_file text.now.name (read text.now.bytes.items)) }
    ensures few { IfOk result (λ modules. vec_len modules ≤ 64) }
{
    match read_modules(alloc, text.bytes.as_slice()) {
        Ok(modules) => Ok(modules),
        Err(TagError::At { line, cause }) => {
            Err(CommandError::Refused(file_tag_line(text.name, line, cause)))
        }
        Err(TagError::Memory) => Err(CommandError::Memory),
    }
}
