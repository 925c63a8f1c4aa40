//! The values of a line.

ghost use Rattle.std.specs.Prelude.{◌≡◌};
ghost use Rattle.asm_text.specs.GivenValues.{model_of_value, IsNotExternal};
ghost use Rattle.asm_defs.specs.FirstChecks.{value, absolute_in};
ghost use Rattle.asm_defs.specs.Locations as spec;
ghost use Rattle.asm_text.specs.Yielded.{Yields};

use asm_defs::{Location, Part};
use asm_text::{ExprError, Symbols, Value, expression_value};
use std::alloc::Global;

/// The names that a line sees, and its place.
#[derive(Clone, Copy)]
pub struct Scope<'a> {
    /// What gives memory.
    pub alloc: Global,
    /// The names.
    pub symbols: &'a Symbols,
    /// The place of the line.
    pub at: Location,
}

impl Scope<'_> {
    /// The value of an expression.
    pub fn value_of(&self, text: &[u8]) -> Result<Value, ExprError>
        ensures { Yields model_of_value result (value self.now.symbols.now self.now.at text.now) }
    {
        expression_value(self.alloc, text, self.symbols, value_at(self.at))
    }

    /// The value of an expression that has to be absolute.
    pub fn absolute_of(&self, text: &[u8]) -> Result<u16, ExprError>
        ensures { Yields (λ number. number) result (absolute_in self.now.symbols.now self.now.at text.now) }
    {
        match self.value_of(text)? {
            Value::Absolute(number) => Ok(number),
            Value::Relocatable(_) | Value::External(_) => Err(ExprError::BadRelocation),
        }
    }
}

/// What a label at a place stands for.
pub(crate) fn value_at(at: Location) -> Value
    ensures value { model_of_value result ≡ spec.value_of at }
    ensures known { IsNotExternal result }
{
    let number = (at.number % 0x10000) as u16;
    match at.part {
        Part::Relocatable => Value::Relocatable(number),
        Part::Absolute | Part::Dummy => Value::Absolute(number),
    }
}
