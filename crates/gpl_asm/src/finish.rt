//! The program of the lines that a builder has taken.

ghost use Rattle.std.specs.Prelude.{◌≡◌, List, None};
ghost use Rattle.std.specs.List.{AllByRecursion};
ghost use Rattle.gpl_source_defs.specs.Locations.{Line};
ghost use Rattle.gpl_source_defs.specs.Programs.{program_after};
ghost use Rattle.gpl_asm.specs.Room.{HasRoom};
ghost use Rattle.gpl_asm.specs.Replay.{Replays, Resolves, line_outcome};
ghost use Rattle.gpl_lines.specs.Answers.{Gives};
ghost use Rattle.gpl_lines.specs.Defined.{model_of_outcome};
ghost use Rattle.gpl_asm.specs.Building.{IsAfter};
ghost use Rattle.gpl_asm.specs.Finishing.{GivesProgram};

use crate::error::{GplError, refusal_at};
use crate::lines::GplLines;
use crate::pending::{Pending, Rest};
use crate::place::put;
use asm_text::Symbols;
use gpl_forms::GromImage;
use gpl_lines::{Failure, Outcome, Scope};
use gpl_source_defs::Location;
use std::alloc::Global;

/// What a GPL source is assembled to.
#[derive(Drop)]
pub struct GplProgram {
    /// The bytes that its lines place.
    pub image: GromImage,
    /// The address that END gives, where it gives one.
    pub entry: Option<u16>,
    /// Its names.
    pub names: Symbols,
}

impl GplLines {
    /// The program of the lines, or the first that the second checks refuse.
    pub(crate) fn program(self) -> Result<GplProgram, GplError>
        ensures { (lines : List Line) → IsAfter lines self → GivesProgram result (program_after lines) }
    {
        let GplLines {
            alloc,
            symbols,
            waiting,
            mut image,
            ..
        } = self;
        match resolve_all(alloc, &symbols, waiting.as_slice(), &mut image) {
            Ok(entry) => Ok(GplProgram {
                image,
                entry,
                names: symbols,
            }),
            Err(error) => Err(error),
        }
    }
}

/// Resolves the lines that wait in their order, up to the first that is refused, and gives the entry.
fn resolve_all(
    alloc: Global,
    symbols: &Symbols,
    waiting: &[Pending],
    image: &mut GromImage,
) -> Result<Option<u16>, GplError>
    requires { AllByRecursion (HasRoom symbols.now) waiting.now }
    ensures { Replays symbols.now (record { image = image.old; entry = None }) waiting.now result image.new }
{
    let mut entry = None;
    let mut rest = waiting;
    while let [line, others @ ..] = rest {
        entry = match resolve(alloc, symbols, line, image, entry) {
            Ok(entry) => entry,
            Err(failure) => return Err(refusal_at(line.number, failure)),
        };
        rest = others;
    }
    Ok(entry)
}

/// Resolves a line that waits, after others, by all names, and gives the entry after it.
fn resolve(
    alloc: Global,
    symbols: &Symbols,
    line: &Pending,
    image: &mut GromImage,
    entry: Option<u16>,
) -> Result<Option<u16>, Failure>
    requires { HasRoom symbols.now line.now }
    ensures { Resolves symbols.now (record { image = image.old; entry = entry }) line.now result image.new }
{
    match &line.rest {
        Rest::Resolved(outcome) => Ok(put(image, entry, line.at, outcome)?),
        Rest::Refused(cause) => Err(Failure::Refused(*cause)),
        Rest::Unresolved(text) => {
            let outcome = line_outcome(alloc, symbols, line.at, text.as_slice())?;
            Ok(put(image, entry, line.at, &outcome)?)
        }
    }
}

/// The outcome of a line at a place, by all names.
pub fn line_outcome(
    alloc: Global,
    symbols: &Symbols,
    at: Location,
    text: &[u8],
) -> Result<Outcome, Failure>
    ensures { Gives model_of_outcome result (line_outcome symbols.now at text.now) }
{
    let scope = Scope { alloc, symbols, at };
    let statement = scope.parsed(text)?;
    scope.outcome(&statement)
}
