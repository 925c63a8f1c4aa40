//! The first checks of a line.

ghost use Rattle.std.specs.Prelude.{◌≡◌, ◌≤◌, IfOk, IfSome, length};
ghost use Rattle.expression_defs.specs.Symbols.{look_up};
ghost use Rattle.gpl_source_defs.specs.Locations as places;
ghost use Rattle.gpl_source_defs.specs.FirstChecks as spec;
ghost use Rattle.gpl_source_defs.specs.Statements.{declared_size};
ghost use Rattle.gpl_lines.specs.Answers.{Gives};
ghost use Rattle.gpl_lines.specs.Defined.{model_of_statement, model_of_checked};
ghost use Rattle.gpl_lines.specs.Validity.{IsValid};

use crate::failure::Failure;
use crate::statement::Statement;
use crate::values::{Scope, address_of};
use asm_text::{Name, SplitLine, Symbols, fields};
use base_defs::GROM_SIZE;
use gpl_source_defs::{GplCause, Location};

/// What the first checks leave of a line.
#[derive(Clone, Copy)]
pub struct Checked<'a> {
    /// Its label.
    pub label: Option<Name>,
    /// What it says.
    pub statement: Statement<'a>,
    /// How many bytes it takes.
    pub size: u32,
}

impl Scope<'_> {
    /// A line by the first checks, where the scope has the names and the location of the lines before it.
    ///
    /// # Errors
    /// `Refused` carries what the first checks refuse first, and comes exactly where they do. `Memory` is lack of
    /// memory.
    #[tactic(auto, unfolding(gpl_source_defs::specs::FirstChecks::checked))]
    pub fn checked<'b>(&self, line: &SplitLine<'b>) -> Result<Checked<'b>, Failure>
        requires { (self.now.at.grom ≤ 65535) × (self.now.at.number ≤ 65536) }
        ensures checked { Gives model_of_checked result
            (spec.checked self.now.symbols.now self.now.at line.now.text.now) }
        ensures short { IfOk result (λ _. length line.now.text.now ≤ 256) }
        ensures valid { IfOk result (λ checked. IsValid checked.statement) }
        ensures size { IfOk result (λ checked. checked.size ≡ declared_size (model_of_statement checked.statement)) }
        ensures most { IfOk result (λ checked. checked.size ≤ 65535) }
    {
        let found = match line.fields {
            Ok(found) => found,
            Err(error) => return Err(Failure::Refused(GplCause::Text(error))),
        };
        if is_taken(self.symbols, &found.label) {
            return Err(Failure::Refused(GplCause::DuplicateLabel));
        }
        let statement = self.statement_at(line.text, &found)?;
        let size = statement.size();
        if is_full(self.at, size) {
            return Err(Failure::Refused(GplCause::GromFull));
        }
        if is_bad(&found.label, &statement) {
            return Err(Failure::Refused(GplCause::BadDirective));
        }
        Ok(Checked {
            label: found.label,
            statement,
            size,
        })
    }

    /// The statement of a line that the first checks accepted with fewer names.
    pub fn parsed<'b>(&self, text: &'b [u8]) -> Result<Statement<'b>, Failure>
        ensures parsed { Gives model_of_statement result (spec.parsed self.now.symbols.now self.now.at text.now) }
        ensures valid { IfOk result IsValid }
    {
        match fields(text) {
            Ok(found) => self.statement_at(text, &found),
            Err(error) => Err(Failure::Refused(GplCause::Text(error))),
        }
    }
}

impl Checked<'_> {
    /// The location that the line sets, if it sets one.
    pub fn origin(&self, here: Location) -> Option<Location>
        requires { here.grom ≤ 65535 }
        ensures origin { result ≡ places.origin_of here (model_of_statement self.now.statement) }
        ensures address { IfSome result (λ origin. origin.grom ≤ 65535) }
    {
        match self.statement {
            Statement::Grom(address) => Some(Location {
                grom: u32::from(address),
                number: u32::from(address),
            }),
            Statement::Aorg(offset) => Some(Location {
                grom: here.grom,
                number: here.grom + u32::from(offset),
            }),
            _ => None,
        }
    }

    /// What a label of the line stands for.
    pub fn label_value(&self, here: Location) -> u16
        requires { here.grom ≤ 65535 }
        ensures { result ≡ spec.label_value here (model_of_statement self.now.statement) }
    {
        if let Statement::Equ(number) = self.statement {
            return number;
        }
        match self.origin(here) {
            Some(origin) => address_of(origin),
            None => address_of(here),
        }
    }

    /// Whether the source ends with the line.
    pub fn is_end(&self) -> bool
        ensures { result ≡ spec.is_end (model_of_statement self.now.statement) }
    {
        matches!(self.statement, Statement::End(_))
    }
}

/// Whether a label stands for something already.
fn is_taken(symbols: &Symbols, label: &Option<Name>) -> bool
    ensures { result ≡ spec.is_taken symbols.now label.now }
{
    match label {
        Some(name) => symbols.get(name).is_some(),
        None => false,
    }
}

/// Whether a line of a size leads past the last address of its GROM.
fn is_full(here: Location, size: u32) -> bool
    requires here { (here.grom ≤ 65535) × (here.number ≤ 65536) }
    requires size { size ≤ 65535 }
    ensures { result ≡ places.passes here size }
{
    here.number + size > here.grom + u32::from(GROM_SIZE)
}

/// Whether a directive cannot stand as it is.
fn is_bad(label: &Option<Name>, statement: &Statement<'_>) -> bool
    ensures { result ≡ spec.is_bad label.now (model_of_statement statement.now) }
{
    match statement {
        Statement::Equ(_) => label.is_none(),
        Statement::Grom(address) => address % GROM_SIZE != 0,
        Statement::Aorg(offset) => *offset >= GROM_SIZE,
        _ => false,
    }
}
