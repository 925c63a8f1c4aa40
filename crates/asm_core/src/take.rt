//! A line that a builder takes.

ghost use Rattle.std.specs.Prelude.{◌≡◌, ◌<◌, ◌≤◌, ◌+◌, ◌-◌, ◌^◌, ◌||◌, max, List, OnOk, OnErr, IfErr};
ghost use Rattle.std.specs.Prelude.{IsTrue, IsFalse};
ghost use Rattle.asm_defs.specs.Locations as places;
ghost use Rattle.asm_defs.specs.Modules.{title_by};
ghost use Rattle.asm_defs.specs.FirstChecks as spec;
ghost use Rattle.asm_defs.proofs.CheckLaws.{IsTitled};
ghost use Rattle.asm_checks.specs.Defined.{model_of_statement};
ghost use Rattle.asm_checks.specs.Moves.{model_of_move, MovesWithin};
ghost use Rattle.asm_checks.specs.Checks.{IsParsed, ListsNames};
ghost use Rattle.asm_core.specs.Assembling.{HasRoom};
ghost use Rattle.asm_core.specs.Keeping.{KnowsLabel, IsUnchanged, SameWork, KeepsRest};
ghost use Rattle.asm_core.specs.Adding.{Adds, Counts, IsAsBefore};
ghost use Rattle.asm_core.specs.Building.{IsAfter, Takes, refusal_at};

use crate::error::AsmError;
use crate::first_pass::Assembled;
use crate::lines::AsmLines;
use crate::returned::{nothing_taken, taken_line};
use crate::taken::TakenLine;
use asm_checks::{Checked, Failure, ParsedLine, Statement, after, location_after, title_in};
use asm_defs::{Location, Part};
use asm_text::SplitLine;
use object_tags::ModuleName;
use std::alloc::AllocError;

impl AsmLines {
    /// Takes a line after those that were taken, and returns where it is placed. A refused line leaves the builder as
    /// before.
    pub(crate) fn take(&mut self, line: &SplitLine<'_>) -> Result<TakenLine, AsmError>
        requires { self.old.taken < 2 ^ 32 - 1 }
        ensures { (lines : List places.Line) → IsAfter lines self.old → Takes lines line.now.text.now result self.new }
    {
        if line.is_comment() {
            self.count()?;
            return Ok(nothing_taken(self.alloc, self.location));
        }
        let checked = match self.known().checked(line) {
            Ok(checked) => checked,
            Err(failure) => return Err(self.refusal(self.known().failure_of(line, failure))),
        };
        let at = after(self.location, checked.moved.gap);
        match self.work(line.text, &checked) {
            Ok(()) => {
                self.advance(&checked);
                let ParsedLine {
                    label,
                    statement,
                    listed,
                } = checked.parsed;
                Ok(taken_line(
                    self.alloc,
                    at,
                    checked.moved.origin,
                    label,
                    &statement,
                    listed,
                ))
            }
            Err(failure) => Err(self.refusal(failure)),
        }
    }

    /// Counts a line that says nothing.
    fn count(&mut self) -> Result<(), AllocError>
        requires { self.old.taken < 2 ^ 32 - 1 }
        ensures counted { OnOk result (Counts self.old self.new) }
        ensures unchanged { OnErr result (IsAsBefore self.old self.new) }
        ensures still { OnErr result (KeepsRest self.old self.new) }
    {
        self.prepare()?;
        self.taken += 1;
        Ok(())
    }

    /// Adds a line, whose label has to be new: its names, and what is known of it. After a line that is refused only
    /// the names count.
    fn work(&mut self, text: &[u8], checked: &Checked<'_>) -> Result<(), Failure>
        requires taken { self.old.taken < 2 ^ 32 - 1 }
        requires line { IsParsed checked.now.parsed }
        requires listed { ListsNames checked.now.parsed }
        requires within { MovesWithin checked.now.moved }
        requires room { HasRoom (places.after self.old.location checked.now.moved.gap) text.now
            (model_of_statement checked.now.parsed.statement) }
        ensures added { OnOk result (Adds self.old text.now checked.now self.new) }
        ensures fresh { OnOk result
            (IsFalse (spec.any_known self.old.symbols (spec.label_in checked.now.parsed.label))) }
        ensures known { IfErr result (KnowsLabel self.old.symbols checked.now.parsed.label) }
        ensures unchanged { OnErr result (IsAsBefore self.old self.new) }
        ensures still { KeepsRest self.old self.new }
    {
        if self.refused.is_some() {
            return self.keep(None, checked);
        }
        self.prepare()?;
        let at = after(self.location, checked.moved.gap);
        let Assembled { waiting, emitted } = self.assemble_line(text, checked)?;
        let waits = waiting.is_some();
        self.keep(waiting, checked)?;
        self.emit(at, emitted, waits);
        Ok(())
    }

    /// The error of the next line.
    fn refusal(&self, failure: Failure) -> AsmError
        requires { self.now.taken < 2 ^ 32 - 1 }
        ensures { result ≡ refusal_at (self.now.taken + 1) failure }
    {
        match failure {
            Failure::Refused(cause) => AsmError::At {
                line: self.taken + 1,
                cause,
            },
            Failure::Memory => AsmError::Memory,
        }
    }

    /// Goes on after a line that was kept.
    fn advance(&mut self, checked: &Checked<'_>)
        requires taken { self.old.taken < 2 ^ 32 - 1 }
        requires within { MovesWithin checked.now.moved }
        requires place { IsTrue
            (places.is_in_part (spec.location_after self.old.location (model_of_move checked.now.moved))) }
        requires titled { IsTitled (model_of_statement checked.now.parsed.statement) }
        ensures location { self.new.location
            ≡ spec.location_after self.old.location (model_of_move checked.now.moved) }
        ensures reached { self.new.reached ≡ max self.old.reached (places.relocatable self.new.location) }
        ensures title { self.new.title ≡ title_by self.old.title (model_of_statement checked.now.parsed.statement) }
        ensures taken { self.new.taken ≡ self.old.taken + 1 }
        ensures ended { self.new.ended
            ≡ (spec.is_end (model_of_statement checked.now.parsed.statement) || self.old.ended) }
        ensures kept { IsUnchanged self.old self.new }
        ensures worked { SameWork self.old self.new }
    {
        self.location = location_after(self.location, &checked.moved);
        self.reached = self.reached.max(relocatable(self.location));
        self.title = title_after(self.title, &checked.parsed.statement);
        self.taken += 1;
        self.ended = is_end(&checked.parsed.statement) || self.ended;
    }
}

/// A relocatable location, or 0.
fn relocatable(location: Location) -> u32
    ensures { result ≡ places.relocatable location }
{
    match location.part {
        Part::Relocatable => location.number,
        Part::Absolute | Part::Dummy => 0,
    }
}

/// The module's name after a line.
fn title_after(title: ModuleName, statement: &Statement<'_>) -> ModuleName
    requires { IsTitled (model_of_statement statement.now) }
    ensures { result ≡ title_by title (model_of_statement statement.now) }
{
    match statement {
        Statement::Idt(text) => match title_in(text) {
            Some(found) => found,
            None => title,
        },
        _ => title,
    }
}

/// Whether the source ends with a line.
fn is_end(statement: &Statement<'_>) -> bool
    ensures { result ≡ spec.is_end (model_of_statement statement.now) }
{
    matches!(statement, Statement::End(_))
}
