//! The calls of a builder.

ghost use Rattle.std.specs.Prelude.{◌≡◌, ◌↔◌, ◌<◌, ◌≤◌, ◌-◌, ◌^◌, ℕ, false, List, [], length, IfOk, OnOk, IsFalse};
ghost use Rattle.expression_defs.specs.Layout.{has_ended};
ghost use Rattle.std.specs.List.{AllByRecursion};
ghost use Rattle.source_defs.specs.EndedLines.{IsOneLine, text_of};
ghost use Rattle.gpl_source_defs.specs.Programs.{program_of_lines, program_of_source};
ghost use Rattle.gpl_source_defs.specs.Locations.{Line};
ghost use Rattle.gpl_source_defs.specs.FirstChecks.{names};
ghost use Rattle.gpl_asm.specs.Building.{HasAccepted, IsAfter, Takes, IsOpen, CanCount};
ghost use Rattle.gpl_asm.specs.Finishing.{AcceptsText, GivesProgram};

use crate::error::GplError;
use crate::finish::GplProgram;
use crate::lines::GplLines;
use crate::taken::TakenLine;
use asm_text::{Symbols, split_line};
use gpl_forms::GromImage;
use gpl_source_defs::Location;
use std::alloc::{AllocError, Global};

/// The first address of the GROM in which a source begins.
const FIRST_GROM: u32 = 0x6000;

impl GplLines {
    /// A builder that has taken no line.
    pub fn new(alloc: Global) -> Result<GplLines, AllocError>
        ensures none { IfOk result (HasAccepted []) }
        ensures open { IfOk result IsOpen }
        ensures count { IfOk result CanCount }
    {
        Ok(GplLines {
            alloc,
            symbols: Symbols::new(alloc),
            location: Location {
                grom: FIRST_GROM,
                number: FIRST_GROM,
            },
            waiting: Vec::new(alloc),
            image: GromImage::new(alloc)?,
            taken: 0,
            ended: false,
        })
    }

    /// Takes a line after those that were taken, and returns where it is placed. It is given without its line feed, and
    /// no line that ends the source was taken before.
    ///
    /// # Errors
    /// `At` comes exactly where the first checks refuse the line there, and carries its number, which is the number of
    /// lines taken plus 1. `Memory` means that memory ran out. After an error the builder is as before.
    pub fn line(&mut self, line: &[u8]) -> Result<TakenLine, GplError>
        requires open { IsOpen self.old }
        requires count { CanCount self.old }
        ensures texts { (texts : List (List ℕ)) → HasAccepted texts self.old
            → AcceptsText texts line.now result self.new }
        ensures lines { (lines : List Line) → IsAfter lines self.old → Takes lines line.now result self.new }
        ensures short { OnOk result (length line.now ≤ 256) }
    {
        self.take(&split_line(line))
    }

    /// The names of the lines that were taken, beside the names of registers.
    pub fn names(&self) -> &Symbols
        ensures { (lines : List Line) → IsAfter lines self.now → result.now ≡ names lines }
    {
        &self.symbols
    }

    /// Whether a line that ends the source was taken.
    pub fn is_ended(&self) -> bool
        ensures open { IsFalse result ↔ IsOpen self.now }
        ensures ended { (texts : List (List ℕ)) → (taken : HasAccepted texts self.now)
            → result ≡ has_ended taken.lines }
    {
        self.ended
    }

    /// How many lines were taken. One more can be taken while they are fewer than 2^32 - 1.
    pub fn taken(&self) -> u32
        ensures taken { (texts : List (List ℕ)) → HasAccepted texts self.now → result ≡ length texts }
        ensures count { (result < 2 ^ 32 - 1) ↔ CanCount self.now }
    {
        self.taken
    }

    /// The program of the lines that were taken, which is the program of their text, each line ended by a carriage
    /// return and a line feed.
    ///
    /// # Errors
    /// `At` carries the first line that the second checks refuse, and comes exactly where there is one. `Memory` is
    /// a lack of memory. After an error the lines are given up.
    #[tactic(auto, using(crate::proofs::EndedLines::lines_make_texts))]
    pub fn finish(self) -> Result<GplProgram, GplError>
        ensures lines { (texts : List (List ℕ)) → HasAccepted texts self
            → GivesProgram result (program_of_lines texts) }
        ensures text { (texts : List (List ℕ)) → HasAccepted texts self → AllByRecursion IsOneLine texts →
            GivesProgram result (program_of_source (text_of texts)) }
    {
        self.program()
    }
}
