//! The calls of a builder.

ghost use Rattle.std.specs.Prelude.{◌≡◌, ◌↔◌, ◌<◌, ◌≤◌, ◌-◌, ◌^◌, ℕ, false, List, [], length, IsFalse};
ghost use Rattle.std.specs.List.{AllByRecursion};
ghost use Rattle.expression_defs.specs.Layout.{has_ended};
ghost use Rattle.asm_defs.specs.Locations.{Line};
ghost use Rattle.asm_defs.specs.FirstChecks.{names};
ghost use Rattle.asm_defs.specs.Modules.{module_of_lines, module_of_source, title};
ghost use Rattle.asm_core.specs.Building.{HasAccepted, IsAfter, IsOpen, CanCount, Takes};
ghost use Rattle.asm_core.specs.Finishing.{AcceptsText, GivesModule};
ghost use Rattle.source_defs.specs.EndedLines.{IsOneLine, text_of};

use crate::error::AsmError;
use crate::finished::Finished;
use crate::lines::AsmLines;
use crate::taken::TakenLine;
use asm_defs::{Location, Part};
use asm_text::{SplitLine, Symbols, split_line};
use object_tags::{Module, ModuleName};
use std::alloc::Global;

impl AsmLines {
    /// A builder that has taken no line. It takes no memory.
    pub fn new(alloc: Global) -> AsmLines
        ensures none { HasAccepted [] result }
        ensures open { IsOpen result }
        ensures count { CanCount result }
    {
        AsmLines {
            alloc,
            symbols: Symbols::new(alloc),
            location: Location {
                part: Part::Relocatable,
                number: 0,
            },
            reached: 0,
            title: blank_title(),
            defs: Vec::new(alloc),
            refs: Vec::new(alloc),
            image: None,
            waiting: Vec::new(alloc),
            refused: None,
            taken: 0,
            ended: false,
        }
    }

    /// Takes a line after those that were taken, and returns where it is placed. It is given without its line feed, and
    /// no line that ends the source was taken before.
    ///
    /// # Errors
    /// `At` comes exactly where the first checks refuse the line there, and carries its number, which is the number of
    /// lines taken plus 1. `Memory` means that memory ran out. After an error the builder is as before.
    pub fn line(&mut self, line: &[u8]) -> Result<TakenLine, AsmError>
        requires open { IsOpen self.old }
        requires count { CanCount self.old }
        ensures texts { (texts : List (List ℕ)) → HasAccepted texts self.old
            → AcceptsText texts line.now result self.new }
        ensures lines { (lines : List Line) → IsAfter lines self.old → Takes lines line.now result self.new }
    {
        self.split_line(&split_line(line))
    }

    /// Takes a line that is split into its fields already, as [`AsmLines::line`] takes it.
    pub fn split_line(&mut self, line: &SplitLine<'_>) -> Result<TakenLine, AsmError>
        requires open { IsOpen self.old }
        requires count { CanCount self.old }
        ensures texts { (texts : List (List ℕ)) → HasAccepted texts self.old
            → AcceptsText texts line.now.text.now result self.new }
        ensures lines { (lines : List Line) → IsAfter lines self.old
            → Takes lines line.now.text.now result self.new }
    {
        self.take(line)
    }

    /// Whether a line that ends the source was taken.
    pub fn is_ended(&self) -> bool
        ensures open { IsFalse result ↔ IsOpen self.now }
        ensures ended { (texts : List (List ℕ)) → (taken : HasAccepted texts self.now) → result ≡ has_ended taken.lines }
    {
        self.ended
    }

    /// How many lines were taken. One more can be taken while they are fewer than 2^32 - 1.
    pub fn taken(&self) -> u32
        ensures taken { (texts : List (List ℕ)) → HasAccepted texts self.now → result ≡ length texts }
        ensures count { (result < 2 ^ 32 - 1) ↔ CanCount self.now }
    {
        self.taken
    }

    /// The module of the lines that were taken, as [`AsmLines::finish`] gives it, and what their names stand for.
    pub fn finish_with_names(mut self) -> Finished
        ensures module { (texts : List (List ℕ)) → HasAccepted texts self →
            GivesModule result.module (module_of_lines texts) }
        ensures names { (texts : List (List ℕ)) → (taken : HasAccepted texts self) →
            result.names ≡ names taken.lines }
    {
        let module = self.module();
        Finished {
            module,
            names: self.symbols,
        }
    }

    /// The module of the lines that were taken, which is the module of their text: each line with a carriage return and
    /// a line feed after it.
    ///
    /// # Errors
    /// `At` carries the first line that the second checks refuse, and comes exactly where there is one. `Memory` is
    /// a lack of memory. After an error the lines are given up.
    #[tactic(auto, using(crate::proofs::EndedLines::lines_make_texts))]
    pub fn finish(mut self) -> Result<Module, AsmError>
        ensures lines { (texts : List (List ℕ)) → HasAccepted texts self → GivesModule result (module_of_lines texts) }
        ensures text { (texts : List (List ℕ)) → HasAccepted texts self → AllByRecursion IsOneLine texts →
            GivesModule result (module_of_source (text_of texts)) }
    {
        self.module()
    }
}

/// The module's name of a source that gives none: blanks.
fn blank_title() -> ModuleName
    ensures { result ≡ title [] }
{
    ModuleName::read(b"        ").unwrap()
}
