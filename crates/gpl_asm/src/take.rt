//! A line that a builder takes.

ghost use Rattle.std.specs.Prelude.{◌≡◌, ◌<◌, ◌≤◌, ◌+◌, ◌-◌, ◌^◌, ◌||◌, List, None, OnOk, length};
ghost use Rattle.expression_defs.specs.Layout.{set_or};
ghost use Rattle.gpl_source_defs.specs.Locations.{Line, after, IsInGrom};
ghost use Rattle.gpl_source_defs.specs.FirstChecks.{is_end};
ghost use Rattle.gpl_lines.specs.Defined.{model_of_statement};
ghost use Rattle.gpl_asm.specs.Keeping.{Counts, SameLists};
ghost use Rattle.gpl_asm.specs.Building.{IsAfter, Takes};

use crate::error::{GplError, refusal_at};
use crate::keep::assemble_line;
use crate::lines::GplLines;
use crate::taken::TakenLine;
use asm_text::SplitLine;
use gpl_lines::{Checked, Scope};
use gpl_source_defs::Location;

impl GplLines {
    /// Takes a line after those that were taken, and returns where it is placed. A refused line leaves the builder as
    /// before.
    pub(crate) fn take(&mut self, line: &SplitLine<'_>) -> Result<TakenLine, GplError>
        requires { self.old.taken < 2 ^ 32 - 1 }
        ensures takes { (lines : List Line) → IsAfter lines self.old → Takes lines line.now.text.now result self.new }
        ensures short { OnOk result (length line.now.text.now ≤ 256) }
    {
        if line.is_comment() {
            self.count();
            return Ok(self.nothing_taken());
        }
        let scope = self.scope();
        let checked = match scope.checked(line) {
            Ok(checked) => checked,
            Err(failure) => return Err(refusal_at(self.taken + 1, failure)),
        };
        let rest = assemble_line(&scope, line.text, &checked.statement)?;
        let at = self.location;
        let origin = checked.origin(at);
        let value = checked.label_value(at);
        self.keep(rest, checked.label, value)?;
        self.advance(origin, &checked);
        Ok(TakenLine {
            at,
            origin,
            label: checked.label,
            value,
        })
    }

    /// What is returned of a line that says nothing.
    fn nothing_taken(&self) -> TakenLine
        ensures { result ≡ record { at = self.now.location; origin = None; label = None; value = 0 } }
    {
        TakenLine {
            at: self.location,
            origin: None,
            label: None,
            value: 0,
        }
    }

    /// Counts a line that says nothing.
    fn count(&mut self)
        requires { self.old.taken < 2 ^ 32 - 1 }
        ensures { Counts self.old self.new }
    {
        self.taken += 1;
    }

    /// What a line after those that were taken sees.
    #[tactic(auto, using(gpl_source_defs::proofs::CheckLaws::most_number))]
    fn scope(&self) -> Scope<'_>
        ensures symbols { result.symbols.now ≡ self.now.symbols }
        ensures at { result.at ≡ self.now.location }
        ensures within { (result.at.grom ≤ 65535) × (result.at.number ≤ 65536) }
    {
        Scope {
            alloc: self.alloc,
            symbols: &self.symbols,
            at: self.location,
        }
    }

    /// Goes on after a line that was kept.
    fn advance(&mut self, origin: Option<Location>, checked: &Checked<'_>)
        requires taken { self.old.taken < 2 ^ 32 - 1 }
        requires place { IsInGrom (after (set_or origin self.old.location) checked.now.size) }
        ensures location { self.new.location ≡ after (set_or origin self.old.location) checked.now.size }
        ensures taken { self.new.taken ≡ self.old.taken + 1 }
        ensures ended { self.new.ended ≡ (is_end (model_of_statement checked.now.statement) || self.old.ended) }
        ensures waiting { SameLists self.old self.new }
    {
        let from = match origin {
            Some(origin) => origin,
            None => self.location,
        };
        self.location = Location {
            grom: from.grom,
            number: from.number + checked.size,
        };
        self.taken += 1;
        self.ended = checked.is_end() || self.ended;
    }
}
