//! The first checks of a line.

ghost use Rattle.std.specs.Prelude.{◌≡◌, ◌≤◌, ◌+◌, IfOk};
ghost use Rattle.source_defs.specs.Fields as lines;
ghost use Rattle.asm_defs.specs.Locations as places;
ghost use Rattle.asm_defs.specs.FirstChecks as spec;
ghost use Rattle.asm_checks.specs.Answers.{Fails, Gives};
ghost use Rattle.asm_checks.specs.Defined.{model_of_statement, NamesOnly};
ghost use Rattle.asm_checks.specs.Moves.{model_of_move, MovesLittle};
ghost use Rattle.asm_checks.specs.Checks.{model_of_earlier_lines, model_of_parsed, model_of_checked, IsParsed};
ghost use Rattle.asm_checks.specs.Checks.{KnowsPlaces};
ghost use Rattle.asm_checks.specs.Checks.{ListsNames, listed_in, parsed_as_new, checked_as_new};
ghost use Rattle.asm_checks.specs.Moves.{MovesWithin};

use crate::failure::Failure;
use crate::moves::{LocationChange, after};
use crate::names::{any_known, is_taken, label_in, names_in, repeats};
use crate::statement::{Statement, statement_in};
use crate::titles::title_in;
use crate::values::Scope;
use asm_defs::{AsmCause, Location, Part};
use asm_text::{Name, SplitLine, Symbols, is_quoted};
use object_tags::MOST_NAMES;
use std::alloc::{AllocError, Global};

/// What is known of the lines before a line.
#[derive(Clone, Copy)]
pub struct EarlierLines<'a> {
    /// The allocator.
    pub alloc: Global,
    /// The names.
    pub symbols: &'a Symbols,
    /// The location.
    pub location: Location,
    /// The highest relocatable location reached.
    pub reached: u32,
    /// The names of DEF.
    pub defs: &'a [Name],
    /// The names of REF.
    pub refs: &'a [Name],
}

/// What a line says.
#[derive(Drop)]
pub struct ParsedLine<'a> {
    /// Its label.
    pub label: Option<Name>,
    /// What is in its fields.
    pub statement: Statement<'a>,
    /// The names that DEF or REF lists.
    pub listed: Vec<Name>,
}

/// What the first checks leave of a line.
#[derive(Drop)]
pub struct Checked<'a> {
    /// What it says.
    pub parsed: ParsedLine<'a>,
    /// What it does to the location.
    pub moved: LocationChange,
}

impl EarlierLines<'_> {
    /// A line by the first checks, but for whether its label is new, which is checked where the label is defined.
    pub fn checked<'b>(&self, line: &SplitLine<'b>) -> Result<Checked<'b>, Failure>
        requires { KnowsPlaces self.now }
        ensures checked { Gives model_of_checked result
            (checked_as_new (model_of_earlier_lines self.now) line.now.text.now) }
        ensures line { IfOk result (λ checked. IsParsed checked.parsed) }
        ensures listed { IfOk result (λ checked. ListsNames checked.parsed) }
        ensures within { IfOk result (λ checked. MovesWithin checked.moved) }
    {
        let parsed = self.parsed(line)?;
        let moved = self.moved(&parsed)?;
        Ok(Checked { parsed, moved })
    }

    /// Why the first checks refuse a line that they refuse with any label: a label that stands for something already
    /// comes before another reason.
    pub fn failure_of(&self, line: &SplitLine<'_>, failure: Failure) -> Failure
        requires { Fails failure (checked_as_new (model_of_earlier_lines self.now) line.now.text.now) }
        ensures { Fails result (spec.checked (model_of_earlier_lines self.now) line.now.text.now) }
    {
        let Ok(found) = line.fields else {
            return failure;
        };
        if self.knows_label(&found.label) {
            return Failure::Refused(AsmCause::DuplicateLabel);
        }
        failure
    }

    /// What a line says, whose names of REF are new.
    #[tactic(auto, unfolding(crate::specs::Checks::parsed_as_new))]
    fn parsed<'b>(&self, line: &SplitLine<'b>) -> Result<ParsedLine<'b>, Failure>
        ensures parsed { Gives model_of_parsed result
            (parsed_as_new (model_of_earlier_lines self.now) line.now.text.now) }
        ensures line { IfOk result IsParsed }
        ensures listed { IfOk result ListsNames }
    {
        let found = match line.fields {
            Ok(found) => found,
            Err(error) => return Err(Failure::Refused(AsmCause::Text(error))),
        };
        let statement = statement_in(line.text, &found)?;
        let listed = listed_names(self.alloc, &statement)?;
        if self.takes_known(found.label, &statement, listed.as_slice()) {
            return Err(Failure::Refused(AsmCause::DuplicateLabel));
        }
        Ok(ParsedLine {
            label: found.label,
            statement,
            listed,
        })
    }

    /// Whether a label stands for something already.
    fn knows_label(&self, label: &Option<Name>) -> bool
        ensures { result ≡ spec.any_known self.now.symbols.now (spec.label_in label.now) }
    {
        any_known(self.symbols, label_in(label))
    }

    /// Whether a name of REF stands for something already.
    fn takes_known(&self, label: Option<Name>, statement: &Statement<'_>, listed: &[Name]) -> bool
        requires { listed.now ≡ listed_in statement.now }
        ensures { result ≡ spec.is_taken self.now.symbols.now label (spec.refs_in (model_of_statement statement.now)) }
    {
        match statement {
            Statement::Ref(_) => is_taken(self.symbols, label, listed),
            _ => false,
        }
    }

    /// Where a line leads.
    #[tactic(auto, using(crate::proofs::Failures::expr_fails), unfolding(asm_defs::specs::FirstChecks::moved))]
    fn moved(&self, parsed: &ParsedLine<'_>) -> Result<LocationChange, Failure>
        requires places { KnowsPlaces self.now }
        requires listed { ListsNames parsed.now }
        requires little { MovesLittle parsed.now.statement }
        ensures checked { Gives (λ moved. model_of_checked (record { parsed = parsed.now; moved = moved })) result
            (spec.moved (model_of_earlier_lines self.now) (model_of_parsed parsed.now)) }
        ensures within { IfOk result MovesWithin }
    {
        let scope = Scope {
            alloc: self.alloc,
            symbols: self.symbols,
            at: self.location,
        };
        let moved = scope.move_by(self.reached, &parsed.statement)?;
        if self.is_too_far(parsed, &moved) {
            return Err(Failure::Refused(AsmCause::Overflow));
        }
        if self.is_bad(parsed) {
            return Err(Failure::Refused(AsmCause::BadDirective));
        }
        Ok(moved)
    }

    /// Whether a line leads past the end of its part, or lists too many names.
    fn is_too_far(&self, parsed: &ParsedLine<'_>, moved: &LocationChange) -> bool
        requires places { KnowsPlaces self.now }
        requires within { MovesWithin moved.now }
        requires listed { ListsNames parsed.now }
        ensures { result ≡ spec.is_too_far (model_of_earlier_lines self.now) (model_of_statement parsed.now.statement)
            (model_of_move moved.now) }
    {
        !is_in_part(location_after(self.location, moved)) || self.lists_too_many(parsed)
    }

    /// Whether DEF or REF lists more names than a module may have.
    fn lists_too_many(&self, parsed: &ParsedLine<'_>) -> bool
        requires { ListsNames parsed.now }
        ensures { result
            ≡ spec.lists_too_many (model_of_earlier_lines self.now) (model_of_statement parsed.now.statement) }
    {
        match parsed.statement {
            Statement::Def(_) => self.defs.len() + parsed.listed.len() > MOST_NAMES,
            Statement::Ref(_) => self.refs.len() + parsed.listed.len() > MOST_NAMES,
            _ => false,
        }
    }

    /// Whether a directive cannot stand as it is.
    fn is_bad(&self, parsed: &ParsedLine<'_>) -> bool
        requires { ListsNames parsed.now }
        ensures { result
            ≡ spec.is_bad (model_of_earlier_lines self.now) parsed.now.label (model_of_statement parsed.now.statement) }
    {
        match parsed.statement {
            Statement::Equ(_) => parsed.label.is_none(),
            Statement::Idt(text) => !(is_quoted(text) && title_in(text).is_some()),
            Statement::Titl(text) => !is_quoted(text),
            Statement::Def(_) => repeats(self.defs, parsed.listed.as_slice()),
            _ => false,
        }
    }
}

/// The names that DEF or REF lists.
fn listed_names(alloc: Global, statement: &Statement<'_>) -> Result<Vec<Name>, AllocError>
    requires { NamesOnly statement.now }
    ensures { IfOk result (λ names. names.items ≡ listed_in statement.now) }
{
    match statement {
        Statement::Def(field) | Statement::Ref(field) => names_in(alloc, field),
        _ => Ok(Vec::new(alloc)),
    }
}

/// The location after a line.
pub fn location_after(here: Location, moved: &LocationChange) -> Location
    requires here { here.number ≤ 65536 }
    requires within { MovesWithin moved.now }
    ensures { result ≡ spec.location_after here (model_of_move moved.now) }
{
    let from = match moved.origin {
        Some(origin) => origin,
        None => here,
    };
    after(from, moved.gap + moved.size)
}

/// Whether a location lies in its part, or just after its last place.
fn is_in_part(location: Location) -> bool
    ensures { result ≡ places.is_in_part location }
{
    let limit = match location.part {
        Part::Relocatable => 65535,
        Part::Absolute | Part::Dummy => 65536,
    };
    location.number <= limit
}
