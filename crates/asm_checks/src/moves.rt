//! What a line does to the location.

ghost use Rattle.std.specs.Prelude.{◌≡◌, ◌≤◌, ◌<◌, ◌+◌, ◌^◌, length, OnOk, IfOk};
ghost use Rattle.asm_defs.specs.Locations as places;
ghost use Rattle.asm_defs.specs.FirstChecks as spec;
ghost use Rattle.asm_defs.specs.Growing.{declared_size};
ghost use Rattle.asm_text.specs.GivenValues.{model_of_value};
ghost use Rattle.source_defs.specs.Refusals.{map_ok};
ghost use Rattle.asm_text.specs.Yielded.{Yields};
ghost use Rattle.asm_checks.specs.Defined.{model_of_statement};
ghost use Rattle.asm_checks.specs.Moves.{model_of_move, MovesLittle, MovesWithin};

use crate::statement::Statement;
use crate::values::{Scope, value_at};
use asm_defs::{Location, Part};
use asm_text::{ExprError, Value, character_count, operand_count};

/// What a line does to the location.
#[derive(Clone, Copy)]
pub struct LocationChange {
    /// The location that it sets.
    pub origin: Option<Location>,
    /// How many bytes it leaves free before it.
    pub gap: u32,
    /// How many bytes it takes.
    pub size: u32,
    /// What its label stands for.
    pub label: Value,
}

impl Scope<'_> {
    /// What a line does to the location, where a relocatable one is the highest reached so far.
    pub fn move_by(
        &self,
        reached: u32,
        statement: &Statement<'_>,
    ) -> Result<LocationChange, ExprError>
        requires here { self.now.at.number ≤ 65536 }
        requires reached { reached ≤ 65535 }
        requires field { MovesLittle statement.now }
        ensures moved { Yields model_of_move result
            (spec.move self.now.symbols.now self.now.at reached (model_of_statement statement.now)) }
        ensures within { IfOk result MovesWithin }
    {
        match statement {
            Statement::Aorg(text) => Ok(set_to(Part::Absolute, u32::from(self.absolute_of(text)?))),
            Statement::Dorg(text) => Ok(set_to(Part::Dummy, u32::from(self.absolute_of(text)?))),
            Statement::Rorg(None) => Ok(set_to(Part::Relocatable, reached)),
            Statement::Rorg(Some(text)) => {
                Ok(set_to(
                    Part::Relocatable,
                    u32::from(non_external_number(self.value_of(text)?)?),
                ))
            }
            Statement::Bss(text) => Ok(stays_at(self.at, u32::from(self.absolute_of(text)?))),
            Statement::Bes(text) => Ok(ends_block(self.at, u32::from(self.absolute_of(text)?))),
            Statement::Equ(text) => Ok(equals(non_external(self.value_of(text)?)?)),
            Statement::Even | Statement::Instruction(..) | Statement::Data(_) => {
                Ok(stays_even(self.at, declared_size(statement)))
            }
            Statement::Byte(_)
            | Statement::Text(_)
            | Statement::Nothing
            | Statement::Def(_)
            | Statement::Ref(_)
            | Statement::Idt(_)
            | Statement::Titl(_)
            | Statement::End(_) => Ok(stays_at(self.at, declared_size(statement))),
        }
    }
}

/// How many bytes a line says that it places.
#[inline(always)]
pub fn declared_size(statement: &Statement<'_>) -> u32
    requires { MovesLittle statement.now }
    ensures size { result ≡ declared_size (model_of_statement statement.now) }
    ensures most { result ≤ 65535 }
{
    match statement {
        Statement::Instruction(line) => u32::from(line.size),
        Statement::Data(field) => 2 * operand_count(field),
        Statement::Byte(field) => operand_count(field),
        Statement::Text(quoted) => character_count(quoted) as u32,
        _ => 0,
    }
}

/// The place some bytes after a place.
pub fn after(at: Location, bytes: u32) -> Location
    requires { at.number + bytes < 2 ^ 32 }
    ensures { result ≡ places.after at bytes }
{
    Location {
        part: at.part,
        number: at.number + bytes,
    }
}

/// A line that takes some bytes from the location on.
fn stays_at(here: Location, size: u32) -> LocationChange
    requires { size ≤ 65535 }
    ensures moved { model_of_move result ≡ spec.stays_at here size }
    ensures within { MovesWithin result }
{
    LocationChange {
        origin: None,
        gap: 0,
        size,
        label: value_at(here),
    }
}

/// A line that takes some bytes from the next even place on.
fn stays_even(here: Location, size: u32) -> LocationChange
    requires here { here.number ≤ 65536 }
    requires size { size ≤ 65535 }
    ensures moved { model_of_move result ≡ spec.stays_even here size }
    ensures within { MovesWithin result }
{
    let gap = here.number % 2;
    LocationChange {
        origin: None,
        gap,
        size,
        label: value_at(after(here, gap)),
    }
}

/// A line whose label stands for the location after it.
fn ends_block(here: Location, size: u32) -> LocationChange
    requires here { here.number ≤ 65536 }
    requires size { size ≤ 65535 }
    ensures moved { model_of_move result ≡ spec.ends_block here size }
    ensures within { MovesWithin result }
{
    LocationChange {
        origin: None,
        gap: 0,
        size,
        label: value_at(after(here, size)),
    }
}

/// A line that sets the location.
fn set_to(part: Part, number: u32) -> LocationChange
    requires { number ≤ 65535 }
    ensures moved { model_of_move result ≡ spec.set_to (record { part = part; number = number }) }
    ensures within { MovesWithin result }
{
    let location = Location { part, number };
    LocationChange {
        origin: Some(location),
        gap: 0,
        size: 0,
        label: value_at(location),
    }
}

/// A line that says what its label stands for.
fn equals(value: Value) -> LocationChange
    ensures moved { model_of_move result ≡ spec.equals (model_of_value value) }
    ensures within { MovesWithin result }
{
    LocationChange {
        origin: None,
        gap: 0,
        size: 0,
        label: value,
    }
}

/// The number of a value that is not external.
fn non_external_number(value: Value) -> Result<u16, ExprError>
    ensures { result ≡ spec.non_external_number (model_of_value value) }
{
    match value {
        Value::Absolute(number) | Value::Relocatable(number) => Ok(number),
        Value::External(_) => Err(ExprError::BadRelocation),
    }
}

/// A value that is not external.
fn non_external(value: Value) -> Result<Value, ExprError>
    ensures { map_ok model_of_value result ≡ spec.non_external (model_of_value value) }
{
    match value {
        Value::Absolute(_) | Value::Relocatable(_) => Ok(value),
        Value::External(_) => Err(ExprError::BadRelocation),
    }
}
