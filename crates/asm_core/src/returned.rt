//! How what a builder returns of a line is made.

ghost use Rattle.std.specs.Prelude.{◌≡◌, ◌≤◌, ◌++◌, [], None};
ghost use Rattle.asm_defs.specs.FirstChecks.{label_in, refs_in};
ghost use Rattle.asm_checks.specs.Defined.{model_of_statement};
ghost use Rattle.asm_checks.specs.Checks.{listed_in};
ghost use Rattle.asm_core.specs.TakenLines.{names_in};

use crate::taken::TakenLine;
use asm_checks::Statement;
use asm_defs::Location;
use asm_text::Name;
use std::alloc::Global;

/// What is returned of a line that the first checks accept, at its place.
pub(crate) fn taken_line(
    alloc: Global,
    at: Location,
    origin: Option<Location>,
    label: Option<Name>,
    statement: &Statement<'_>,
    listed: Vec<Name>,
) -> TakenLine
    requires within { at.number ≤ 65536 }
    requires listed { listed.items ≡ listed_in statement.now }
    ensures at { result.at ≡ at }
    ensures origin { result.origin ≡ origin }
    ensures names { names_in result ≡ label_in label ++ refs_in (model_of_statement statement.now) }
{
    let refs = match statement {
        Statement::Ref(_) => listed,
        _ => Vec::new(alloc),
    };
    TakenLine {
        at,
        origin,
        label,
        refs,
    }
}

/// What is returned of a line that says nothing.
pub(crate) fn nothing_taken(alloc: Global, at: Location) -> TakenLine
    requires within { at.number ≤ 65536 }
    ensures at { result.at ≡ at }
    ensures origin { result.origin ≡ None }
    ensures names { names_in result ≡ [] }
{
    TakenLine {
        at,
        origin: None,
        label: None,
        refs: Vec::new(alloc),
    }
}
