//! The values of a line's expressions.

ghost use Rattle.std.specs.Prelude.{◌≡◌, IfErr, IfOk};
ghost use Rattle.std.specs.Option.{option_map};
ghost use Rattle.source_defs.specs.Operands.{operand_texts};
ghost use Rattle.expression_defs.specs.Symbols.{look_up};
ghost use Rattle.gpl_source_defs.specs.Locations.{address_of};
ghost use Rattle.gpl_source_defs.specs.Values as spec;
ghost use Rattle.gpl_lines.specs.Answers.{Gives};
ghost use Rattle.gpl_lines.specs.Defined.{model_of_memory};

use crate::failure::Failure;
use crate::forms::Memory;
use crate::numbers::{held_address, index_of};
use asm_text::{Symbols, Value, expression_value, operands};
use expression_defs::ExprError;
use gpl_defs::GplOperand;
use gpl_source_defs::{GplCause, Location};
use std::alloc::Global;

/// The names that a line sees, and its place.
#[derive(Clone, Copy)]
pub struct Scope<'a> {
    /// What gives memory.
    pub alloc: Global,
    /// The names, each of which stands for a number.
    pub symbols: &'a Symbols,
    /// The place of the line.
    pub at: Location,
}

impl Scope<'_> {
    /// The value of an expression.
    #[tactic(auto, using(crate::proofs::Failures::expr_fails))]
    pub(crate) fn number(&self, text: &[u8]) -> Result<u16, Failure>
        ensures { Gives (λ number. number) result (spec.number (look_up self.now.symbols.now)
            (address_of self.now.at) text.now) }
    {
        let here = Value::Absolute(address_of(self.at));
        match expression_value(self.alloc, text, self.symbols, here) {
            Ok(Value::Absolute(number)) => Ok(number),
            Ok(Value::Relocatable(_) | Value::External(_)) => {
                Err(Failure::Refused(GplCause::Expr(ExprError::BadRelocation)))
            }
            Err(error) => Err(Failure::from(error)),
        }
    }

    /// The numbers of the operands of a field, from the left.
    pub(crate) fn numbers(&self, field: &[u8]) -> Result<Vec<u16>, Failure>
        ensures { Gives (λ numbers. numbers.items) result
            (spec.numbers (look_up self.now.symbols.now) (address_of self.now.at) (operand_texts field.now)) }
    {
        let mut numbers = Vec::new(self.alloc);
        for span in operands(field) {
            let number = self.number(&field[span.start..span.end])?;
            if numbers.push(number).is_err() {
                return Err(Failure::Memory);
            }
        }
        Ok(numbers)
    }

    /// An operand in memory: its address, then its index.
    pub(crate) fn operand(&self, memory: &Memory<'_>) -> Result<GplOperand, Failure>
        ensures { Gives (λ operand. operand) result
            (spec.operand (look_up self.now.symbols.now) (address_of self.now.at) (model_of_memory memory.now)) }
    {
        let number = self.number(memory.address)?;
        let index = self.index(memory.index)?;
        Ok(GplOperand {
            space: memory.space,
            indirect: memory.indirect,
            address: held_address(memory.space, memory.indirect, number),
            index,
        })
    }

    /// An index, where an operand has one.
    fn index(&self, text: Option<&[u8]>) -> Result<Option<u8>, Failure>
        ensures { Gives (λ index. index) result
            (spec.index_value (look_up self.now.symbols.now) (address_of self.now.at)
            (option_map (λ text. text.now) text.entry)) }
    {
        match text {
            None => Ok(None),
            Some(text) => {
                let number = self.number(text)?;
                let index = index_of(number)?;
                Ok(Some(index))
            }
        }
    }
}

/// What `$` and a label at a place stand for.
pub fn address_of(at: Location) -> u16
    ensures { result ≡ address_of at }
{
    (at.number % 0x10000) as u16
}
