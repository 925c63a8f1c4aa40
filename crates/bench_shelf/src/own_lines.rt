//! Lines that stand for themselves.

ghost use Rattle.std.specs.Prelude.{◌≡◌, List, [], OnOk, IfErr, length, is_some, true};
ghost use Rattle.shelf_defs.specs.Copied.{PlacedLine, own_line};
ghost use Rattle.shelf_defs.specs.Assembly.{texts, in_place};
ghost use Rattle.asm_defs.specs.Modules.{module_of_lines};
ghost use Rattle.asm_core.specs.Building.{IsOpen};
ghost use Rattle.bench_shelf.specs.CopyAnswers.{model_of_place, failed_at, place_in, GivesCopied};
ghost use Rattle.bench_shelf.specs.Leading.{Holds, IsHeld, CopiesTo, HasRoom, Grows, count, error_at};
ghost use Rattle.bench_shelf.specs.Causes.{IsOfLine};

use crate::copy_error::{CopyCause, CopyError};
use crate::copying::Copying;
use crate::file_name::FileName;
use crate::keep_line::keep_line;
use crate::runs::{note_place, place_of};
use asm_checks::Failure;
use asm_core::{AsmError, AsmLines};
use asm_text::SplitLine;
use object_tags::Module;
use std::alloc::Global;

impl Copying {
    /// No line was taken.
    pub(crate) fn new(alloc: Global) -> Copying
        ensures none { Holds [] result }
        ensures going { IsOpen result.builder }
        ensures copies { result.copies ≡ 0 }
        ensures count { count result ≡ 0 }
    {
        Copying {
            alloc,
            builder: AsmLines::new(alloc),
            runs: Vec::new(alloc),
            kept: None,
            copies: 0,
        }
    }

    /// No line was taken, and those that are will be kept.
    pub(crate) fn keeping(alloc: Global) -> Copying
        ensures none { Holds [] result }
        ensures going { IsOpen result.builder }
        ensures copies { result.copies ≡ 0 }
        ensures count { count result ≡ 0 }
        ensures keeps { is_some result.kept ≡ true }
    {
        let mut copying = Copying::new(alloc);
        copying.kept = Some(Vec::new(alloc));
        copying
    }

    /// Takes a line of a file, or of the source itself, that stands for itself, and notes its place. The error is the
    /// cause alone, since `CopyError` has room for a file's name and is moved at each call; the place is added where a
    /// line is refused.
    #[tactic(auto, using(crate::proofs::CountLaws::can_count))]
    pub(crate) fn take(
        &mut self,
        file: &Option<FileName>,
        line: u32,
        own: &SplitLine<'_>,
    ) -> Result<(), Failure>
        requires going { IsOpen self.old.builder }
        requires room { HasRoom 1 self.old }
        ensures leads { CopiesTo self.old
            (own_line (model_of_place (place_in file.now line)) self.old.copies own.now.text.now)
            (error_at (place_in file.now line) result) self.new }
        ensures same { is_some self.new.kept ≡ is_some self.old.kept }
        ensures grows { OnOk result (Grows 1 self.old self.new) }
        ensures copies { self.new.copies ≡ self.old.copies }
        ensures causes { IfErr result (λ failure. IsOfLine (failed_at (place_in file.now line) failure)) }
    {
        let taken = match self.builder.split_line(own) {
            Ok(taken) => taken,
            Err(AsmError::At { cause, .. }) => return Err(Failure::Refused(cause)),
            Err(AsmError::Memory) => return Err(Failure::Memory),
        };
        note_place(&mut self.runs, file, line)?;
        keep_line(self.alloc, &mut self.kept, file, line, taken, own.text)?;
        Ok(())
    }

    /// The module of the lines that were taken.
    pub(crate) fn finish(self) -> Result<Module, CopyError>
        ensures module { (done : List PlacedLine) → Holds done self →
            GivesCopied result (in_place done (module_of_lines (texts done))) }
        ensures causes { IsHeld self → IfErr result IsOfLine }
    {
        let Copying { builder, runs, .. } = self;
        match builder.finish() {
            Ok(module) => Ok(module),
            Err(AsmError::At { line, cause }) => {
                Err(place_of(runs.as_slice(), line).refused(CopyCause::Asm(cause)))
            }
            Err(AsmError::Memory) => Err(CopyError::Memory),
        }
    }
}
