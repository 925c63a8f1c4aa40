//! Lines with the lines of the files that they copy.

ghost use Rattle.std.specs.Prelude.{◌≡◌, ◌≤◌, OnOk, IfErr, length, is_some};
ghost use Rattle.source_defs.specs.Lines.{line_texts};
ghost use Rattle.shelf_defs.specs.Copied as spec;
ghost use Rattle.shelf_defs.specs.Copied.{most_bytes, most_copies};
ghost use Rattle.asm_core.specs.Building.{IsOpen};
ghost use Rattle.bench_shelf.specs.CopyAnswers.{model_of_place};
ghost use Rattle.bench_shelf.specs.Leading.{Copies, HasRoom, Grows, error_in};
ghost use Rattle.bench_shelf.specs.Causes.{CountsGrew, ShelfCauses, ReadWithinLimit};

use crate::copy_error::{CopyCause, CopyError};
use crate::copy_line::{LineKind, line_kind};
use crate::copying::Copying;
use crate::file_name::FileName;
use crate::named_file::read_named;
use crate::place::{Place, place_in};
use crate::shelf::Shelf;
use asm_text::{SplitLine, lines, part, split_line};

/// The most COPY lines of a source with its files.
const MOST_COPIES: u32 = 64;

/// The most bytes of a file that is copied.
const MOST_BYTES: usize = 262144;

impl Copying {
    /// Takes the lines of a file, or of the source itself, with the lines of the files that they copy, which may be
    /// copied `levels` deep. It ends after a line that ends the source.
    ///
    /// # Errors
    /// The first line that is refused, or why a file was not read.
    #[cycle(copying)]
    #[tactic(auto, using(crate::proofs::LoopLaws::room_left))]
    pub(crate) fn copy_lines<F: Shelf>(
        &mut self,
        shelf: &mut F,
        levels: u32,
        file: &Option<FileName>,
        text: &[u8],
    ) -> Result<(), CopyError>
        requires going { IsOpen self.old.builder }
        requires room { HasRoom (length text.now) self.old }
        ensures copies { Copies self.old self.new
            (λ contents. spec.lines_in (spec.copy_line contents levels) file.now self.old.copies (line_texts text.now))
            (error_in result) (F.shelf shelf.old) (F.shelf shelf.new) }
        ensures causes { IfErr result (λ error. ShelfCauses error (F.shelf shelf.old) (F.shelf shelf.new)) }
        ensures within { OnOk result (ReadWithinLimit most_bytes (F.shelf shelf.old) (F.shelf shelf.new)) }
        ensures later { CountsGrew (F.shelf shelf.old) (F.shelf shelf.new) }
        ensures grows { OnOk result (Grows (length text.now) self.old self.new) }
        ensures most { self.new.copies ≤ most_copies }
        ensures same { is_some self.new.kept ≡ is_some self.old.kept }
    {
        for line in lines(text) {
            let own = split_line(part(text, line.span));
            match self.copy_asked(shelf, levels, place_in(file, line.number), &own) {
                Ok(()) => {}
                Err(error) => return Err(error),
            }
            if self.builder.is_ended() {
                return Ok(());
            }
        }
        Ok(())
    }

    /// Takes a line by what it asks for: itself, or the lines of a file.
    #[cycle(copying)]
    fn copy_asked<F: Shelf>(
        &mut self,
        shelf: &mut F,
        levels: u32,
        place: Place,
        line: &SplitLine<'_>,
    ) -> Result<(), CopyError>
        requires going { IsOpen self.old.builder }
        requires room { HasRoom 1 self.old }
        ensures copies { Copies self.old self.new
            (λ contents.
            spec.one_line (spec.copy_line contents levels) (model_of_place place) self.old.copies line.now.text.now)
            (error_in result) (F.shelf shelf.old) (F.shelf shelf.new) }
        ensures causes { IfErr result (λ error. ShelfCauses error (F.shelf shelf.old) (F.shelf shelf.new)) }
        ensures within { OnOk result (ReadWithinLimit most_bytes (F.shelf shelf.old) (F.shelf shelf.new)) }
        ensures later { CountsGrew (F.shelf shelf.old) (F.shelf shelf.new) }
        ensures grows { OnOk result (Grows 1 self.old self.new) }
        ensures most { self.new.copies ≤ most_copies }
        ensures same { is_some self.new.kept ≡ is_some self.old.kept }
    {
        match line_kind(line) {
            LineKind::Itself => match self.take(&place.file, place.line, line) {
                Ok(()) => Ok(()),
                Err(failure) => Err(place.failed(failure)),
            },
            LineKind::File(name) => self.copy_file(shelf, levels, place, name),
            LineKind::Bad => Err(place.refused(CopyCause::BadCopy)),
        }
    }

    /// Takes the lines of the file that the COPY line at a place names.
    #[cycle(copying)]
    fn copy_file<F: Shelf>(
        &mut self,
        shelf: &mut F,
        levels: u32,
        place: Place,
        name: FileName,
    ) -> Result<(), CopyError>
        requires going { IsOpen self.old.builder }
        requires room { HasRoom 1 self.old }
        ensures copies { Copies self.old self.new
            (λ contents. spec.copy_line contents levels (model_of_place place) self.old.copies name)
            (error_in result) (F.shelf shelf.old) (F.shelf shelf.new) }
        ensures causes { IfErr result (λ error. ShelfCauses error (F.shelf shelf.old) (F.shelf shelf.new)) }
        ensures within { OnOk result (ReadWithinLimit most_bytes (F.shelf shelf.old) (F.shelf shelf.new)) }
        ensures later { CountsGrew (F.shelf shelf.old) (F.shelf shelf.new) }
        ensures grows { OnOk result (Grows 1 self.old self.new) }
        ensures most { self.new.copies ≤ most_copies }
        ensures same { is_some self.new.kept ≡ is_some self.old.kept }
    {
        if levels == 0 {
            return Err(place.refused(CopyCause::TooDeep));
        }
        if self.copies >= MOST_COPIES {
            return Err(place.refused(CopyCause::TooMany));
        }
        self.copies += 1;
        let bytes = match read_named(self.alloc, shelf, &name, MOST_BYTES) {
            Ok(bytes) => bytes,
            Err(error) => return Err(place.unread(error)),
        };
        self.copy_lines(shelf, levels - 1, &Some(name), bytes.as_slice())
    }
}
