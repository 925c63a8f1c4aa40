//! What is shown of a line: its place, and what it places.

ghost use Rattle.std.specs.Prelude.{◌≡◌, ◌≤◌, IfOk, not};
ghost use Rattle.asm_defs.specs.Memory as memory;
ghost use Rattle.asm_defs.specs.Statements as parsed;
ghost use Rattle.asm_checks.specs.Answers.{Gives};
ghost use Rattle.asm_checks.specs.Defined.{model_of_statement, KeepsSkeleton, NamesOnly};
ghost use Rattle.asm_checks.specs.Moves.{MovesLittle};
ghost use Rattle.asm_list_defs.specs.Listed as spec;
ghost use Rattle.asm_list_defs.specs.Rows.{outcome_text};
ghost use Rattle.bench_shelf.specs.Kept.{shown_of};
ghost use Rattle.asm_list.specs.Adding.{Shows, found_in, known_to};

use crate::text::outcome_text;
use asm_checks::{Failure, Scope, Statement, statement_in};
use asm_defs::{AsmCause, Location, Part};
use asm_text::{Symbols, fields};
use bench_shelf::KeptLine;
use std::alloc::{AllocError, Global};

/// What is shown of a line.
#[derive(Drop)]
pub(crate) struct Shown {
    /// Its place.
    pub(crate) at: Location,
    /// The text of what it places.
    pub(crate) placed: Vec<u8>,
}

/// How lines are listed.
#[derive(Clone, Copy)]
pub(crate) struct Lister<'a> {
    /// What gives memory.
    pub(crate) alloc: Global,
    /// What each name stands for, where all names are known: what lines place is listed then.
    pub(crate) names: Option<&'a Symbols>,
}

impl Lister<'_> {
    /// What is shown of a line.
    pub(crate) fn shown_line(&self, line: &KeptLine) -> Result<Shown, AllocError>
        ensures { IfOk result (λ shown. Shows shown (shown_of (known_to self.now) line.now)) }
    {
        let at = line.taken.at;
        match parse_line(line.text.as_slice()) {
            Ok(statement) => self.shown_statement(at, line.taken.origin, &statement),
            Err(Failure::Refused(_)) => Ok(Shown {
                at,
                placed: Vec::new(self.alloc),
            }),
            Err(Failure::Memory) => Err(AllocError),
        }
    }

    /// What is shown of what a line says, at its place, or at the location that it sets.
    #[tactic(auto, unfolding(asm_list_defs::specs::Rows::outcome_text))]
    fn shown_statement(
        &self,
        at: Location,
        origin: Option<Location>,
        statement: &Statement<'_>,
    ) -> Result<Shown, AllocError>
        requires at { at.number ≤ 65536 }
        requires little { MovesLittle statement.now }
        requires names { NamesOnly statement.now }
        requires skeleton { KeepsSkeleton statement.now }
        ensures { IfOk result (λ shown.
            Shows shown (spec.shown_at (known_to self.now) at origin (model_of_statement statement.now))) }
    {
        match self.names {
            Some(symbols) => {
                let scope = Scope {
                    alloc: self.alloc,
                    symbols,
                    at,
                };
                let placed = placed_text(&scope, statement)?;
                Ok(Shown {
                    at: origin.unwrap_or(at),
                    placed,
                })
            }
            None => Ok(Shown {
                at: origin.unwrap_or(at),
                placed: Vec::new(self.alloc),
            }),
        }
    }
}

/// What a line says.
fn parse_line(text: &[u8]) -> Result<Statement<'_>, Failure>
    ensures parsed { Gives model_of_statement result (parsed.parse_line text.now) }
    ensures little { IfOk result MovesLittle }
    ensures names { IfOk result NamesOnly }
    ensures skeleton { IfOk result KeepsSkeleton }
{
    match fields(text) {
        Ok(found) => statement_in(text, &found),
        Err(error) => Err(Failure::Refused(AsmCause::Text(error))),
    }
}

/// The text of what a line places by all names, at its place.
#[tactic(auto, using(crate::proofs::ShownLaws::dummy_text, crate::proofs::ShownLaws::refused_text))]
fn placed_text(scope: &Scope<'_>, statement: &Statement<'_>) -> Result<Vec<u8>, AllocError>
    requires at { scope.now.at.number ≤ 65536 }
    requires little { MovesLittle statement.now }
    requires names { NamesOnly statement.now }
    requires skeleton { KeepsSkeleton statement.now }
    ensures { IfOk result (λ text. text.items
        ≡ outcome_text (found_in scope.now.symbols.now scope.now.at (model_of_statement statement.now))) }
{
    if is_dummy(scope.at.part) {
        return Ok(Vec::new(scope.alloc));
    }
    match scope.outcome(statement) {
        Ok(outcome) => outcome_text(scope.alloc, &outcome),
        Err(Failure::Refused(_)) => Ok(Vec::new(scope.alloc)),
        Err(Failure::Memory) => Err(AllocError),
    }
}

/// Whether nothing is placed in a part.
fn is_dummy(part: Part) -> bool
    ensures { memory.is_placed_in part ≡ not result }
{
    matches!(part, Part::Dummy)
}
