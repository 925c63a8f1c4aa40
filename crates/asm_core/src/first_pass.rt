//! The first pass over a line: its outcome by the names that are known.
//!
//! These are the names of the lines before, so a line that uses its own label (`LOOP JMP LOOP`) is open, and `JMP $` is
//! not. Values and their ranges come before room, so a line without room is kept while a value of it is open.

ghost use Rattle.std.specs.Prelude.{◌≡◌, ◌≤◌, ◌+◌, IfOk, not, IsTrue};
ghost use Rattle.asm_defs.specs.Memory as memory;
ghost use Rattle.asm_defs.specs.Growing.{declared_size, held_place};
ghost use Rattle.asm_checks.specs.Defined.{model_of_statement};
ghost use Rattle.asm_checks.specs.Moves.{MovesLittle};
ghost use Rattle.asm_checks.specs.Outcomes.{model_of_outcome};
ghost use Rattle.asm_checks.specs.Checks.{IsParsed};
ghost use Rattle.asm_core.specs.Held.{has_room};
ghost use Rattle.asm_core.specs.Assembling.{Assembles, HasRoom, GivesBytes, IsPending};

use crate::contents::contents;
use crate::pending::Pending;
use asm_checks::{Failure, Outcome, ParsedLine, Scope, declared_size, is_unresolved};
use asm_defs::{AsmCause, Content, Location, Part};
use asm_text::Symbols;
use std::alloc::{AllocError, Global};

/// What the first pass emits of a line.
#[derive(Drop)]
pub(crate) enum Emitted {
    /// These bytes are placed there.
    Bytes(Vec<Content>),
    /// The second checks refuse the line.
    Refused(AsmCause),
}

/// What the first pass makes of a line.
#[derive(Drop)]
pub(crate) struct Assembled {
    /// The line, where a value of it is open, so that it waits for the second pass. Zeros hold its places then.
    pub(crate) waiting: Option<Pending>,
    pub(crate) emitted: Emitted,
}

/// The first pass at a line that the first checks accept, with its number and its place.
#[derive(Clone, Copy)]
pub(crate) struct FirstPass<'a> {
    pub(crate) alloc: Global,
    /// The names that are known.
    pub(crate) symbols: &'a Symbols,
    pub(crate) number: u32,
    pub(crate) at: Location,
}

impl FirstPass<'_> {
    /// Assembles a line by the names that are known.
    pub(crate) fn assemble_line(
        &self,
        text: &[u8],
        parsed: &ParsedLine<'_>,
    ) -> Result<Assembled, AllocError>
        requires line { IsParsed parsed.now }
        requires room { HasRoom self.now.at text.now (model_of_statement parsed.now.statement) }
        ensures { IfOk result
            (Assembles self.now.symbols.now self.now.number self.now.at text.now
            (model_of_statement parsed.now.statement)) }
    {
        let scope = Scope {
            alloc: self.alloc,
            symbols: self.symbols,
            at: self.at,
        };
        match scope.outcome(&parsed.statement) {
            Ok(outcome) => {
                if outcome.is_resolved() {
                    let bytes = self.bytes_of(&outcome)?;
                    return Ok(Assembled {
                        waiting: None,
                        emitted: Emitted::Bytes(bytes),
                    });
                }
            }
            Err(Failure::Refused(cause)) => {
                if !is_unresolved(cause) {
                    return Ok(Assembled {
                        waiting: None,
                        emitted: Emitted::Refused(cause),
                    });
                }
            }
            Err(Failure::Memory) => return Err(AllocError),
        }
        let zeros = self.zeros(parsed)?;
        let waiting = self.pending(text)?;
        Ok(Assembled {
            waiting: Some(waiting),
            emitted: Emitted::Bytes(zeros),
        })
    }

    /// The line, as it waits for names.
    fn pending(&self, text: &[u8]) -> Result<Pending, AllocError>
        requires { IsTrue (has_room self.now.at text.now) }
        ensures { IfOk result (IsPending self.now.number self.now.at text.now) }
    {
        Ok(Pending {
            number: self.number,
            at: self.at,
            text: Vec::from_slice(self.alloc, text)?,
        })
    }

    /// Zeros that hold the places of a line.
    fn zeros(&self, parsed: &ParsedLine<'_>) -> Result<Vec<Content>, AllocError>
        requires little { MovesLittle parsed.now.statement }
        requires fits { self.now.at.number + declared_size (model_of_statement parsed.now.statement) ≤ 65536 }
        ensures { IfOk result (λ zeros. GivesBytes self.now.at
            (held_place self.now.at (model_of_statement parsed.now.statement)).outcome zeros.items) }
    {
        vec![in self.alloc; Content::Byte(0); declared_size(&parsed.statement) as usize]
    }

    /// The bytes of the outcome of a line. There are none in the part of dummy lines.
    fn bytes_of(&self, outcome: &Outcome) -> Result<Vec<Content>, AllocError>
        requires { self.now.at.number + memory.bytes_in (model_of_outcome outcome.now) ≤ 65536 }
        ensures { IfOk result (λ bytes. GivesBytes self.now.at (model_of_outcome outcome.now) bytes.items) }
    {
        if is_dummy(self.at.part) {
            return Ok(Vec::new(self.alloc));
        }
        let mut unused = Vec::new(self.alloc);
        contents(self.alloc, &mut unused, self.at, outcome)
    }
}

/// Whether nothing is placed in a part.
pub(crate) fn is_dummy(part: Part) -> bool
    ensures { memory.is_placed_in part ≡ not result }
{
    matches!(part, Part::Dummy)
}
