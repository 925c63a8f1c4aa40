//! The second pass over the lines that wait, by all names.

ghost use Rattle.std.specs.Prelude.{◌≡◌, ◌≤◌, ◌+◌, List, OnOk, IfOk, map};
ghost use Rattle.object_defs.specs.Modules.{Reference};
ghost use Rattle.object_tags.specs.Seen.{model_of_ref};
ghost use Rattle.asm_defs.specs.Memory as memory;
ghost use Rattle.asm_defs.specs.Modules.{unused, entry_by};
ghost use Rattle.asm_checks.specs.Outcomes.{model_of_outcome};
ghost use Rattle.asm_core.specs.Resolving.{Fills, FillsBytes, Resolves};

use crate::contents::contents;
use crate::first_pass::is_dummy;
use crate::pending::Pending;
use asm_checks::{Failure, Outcome, Scope, statement_in};
use asm_defs::{AsmCause, Location};
use asm_text::{Name, Symbols, fields};
use module_image::Image;
use object_defs::Spot;
use object_tags::Ref;
use std::alloc::{AllocError, Global};

/// The output of both passes: what the lines place, the last uses of the names that others define, and the entry.
#[derive(Drop)]
pub(crate) struct Output {
    pub(crate) alloc: Global,
    pub(crate) image: Image,
    pub(crate) references: Vec<Ref>,
    pub(crate) entry: Option<Spot>,
}

impl Output {
    /// Resolves a line that waits: puts its outcome by all names into its places, or says why the second checks
    /// refuse it.
    pub(crate) fn resolve(&mut self, symbols: &Symbols, pending: &Pending) -> Result<(), Failure>
        ensures { (unused : List Reference) → Resolves unused symbols.now pending.now result self.old self.new }
    {
        let text = pending.text.as_slice();
        let found = match fields(text) {
            Ok(found) => found,
            Err(error) => return Err(Failure::Refused(AsmCause::Text(error))),
        };
        let statement = statement_in(text, &found)?;
        let scope = Scope {
            alloc: self.alloc,
            symbols,
            at: pending.at,
        };
        let outcome = scope.outcome(&statement)?;
        self.fill(pending.at, &outcome)?;
        Ok(())
    }

    /// Puts the outcome of a line into its places.
    fn fill(&mut self, at: Location, outcome: &Outcome) -> Result<(), AllocError>
        requires { at.number + memory.bytes_in (model_of_outcome outcome.now) ≤ 65536 }
        ensures { OnOk result
            ((unused : List Reference) → Fills unused at (model_of_outcome outcome.now) self.old self.new) }
    {
        self.fill_bytes(at, outcome)?;
        self.note_entry(outcome);
        Ok(())
    }

    /// Puts the bytes of a line into its places. There are none in the part of dummy lines.
    fn fill_bytes(&mut self, at: Location, outcome: &Outcome) -> Result<(), AllocError>
        requires { at.number + memory.bytes_in (model_of_outcome outcome.now) ≤ 65536 }
        ensures filled { OnOk result
            ((unused : List Reference) → FillsBytes unused at (model_of_outcome outcome.now) self.old self.new) }
        ensures entry { self.new.entry ≡ self.old.entry }
    {
        if is_dummy(at.part) {
            return Ok(());
        }
        let contents = contents(self.alloc, &mut self.references, at, outcome)?;
        self.image.fill_reserved(at, contents.as_slice());
        Ok(())
    }

    /// Notes the entry that a line gives.
    fn note_entry(&mut self, outcome: &Outcome)
        ensures entry { self.new.entry ≡ entry_by self.old.entry (model_of_outcome outcome.now) }
        ensures image { self.new.image ≡ self.old.image }
        ensures references { self.new.references ≡ self.old.references }
    {
        if let Outcome::Entry(entry) = outcome {
            self.entry = Some(*entry);
        }
    }
}

/// The names of REF before their first use.
pub(crate) fn unused_references(alloc: Global, refs: &[Name]) -> Result<Vec<Ref>, AllocError>
    ensures { IfOk result (λ references. map model_of_ref references.items ≡ map unused refs.now) }
{
    let mut references = Vec::new(alloc);
    for name in refs {
        references.push(Ref {
            name: *name,
            last: Spot::Absolute(0),
        })?;
    }
    Ok(references)
}
