//! The lines that are kept for a listing.

ghost use Rattle.std.specs.Prelude.{◌≡◌, OnOk, is_some};
ghost use Rattle.bench_shelf.specs.CopyAnswers.{place_in};
ghost use Rattle.bench_shelf.specs.Kept.{KeepsLine};

use crate::file_name::FileName;
use crate::kept_line::KeptLine;
use asm_core::TakenLine;
use std::alloc::{AllocError, Global};

/// Keeps one more line, where lines are kept.
pub(crate) fn keep_line(
    alloc: Global,
    kept: &mut Option<Vec<KeptLine>>,
    file: &Option<FileName>,
    line: u32,
    taken: TakenLine,
    text: &[u8],
) -> Result<(), AllocError>
    ensures same { is_some kept.new ≡ is_some kept.old }
    ensures kept { OnOk result (KeepsLine kept.old (place_in file.now line) taken text.now kept.new) }
{
    if let Some(lines) = kept {
        let text = Vec::from_slice(alloc, text)?;
        lines.push(KeptLine {
            file: *file,
            line,
            taken,
            text,
        })?;
    }
    Ok(())
}
