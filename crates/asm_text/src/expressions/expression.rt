//! The value of an expression.

ghost use Rattle.expression_defs.specs.Expression.{expression};
ghost use Rattle.expression_defs.specs.Symbols.{look_up};
ghost use Rattle.asm_text.specs.GivenValues.{model_of_value, IsNotExternal};
ghost use Rattle.asm_text.specs.Yielded.{Yields};

use crate::expressions::evaluate::term_value;
use crate::expressions::fold::value;
use crate::expressions::scan::{token_at, tokens};
use crate::expressions::symbols::Symbols;
use crate::expressions::values::Value;
use expression_defs::ExprError;
use std::alloc::Global;

/// The value of a text: its tokens first, then its terms. `$` stands for `here`.
///
/// # Errors
/// The refusal of `tokens`, else that of `value`. `Memory` means that memory ran out.
pub fn expression_value(
    alloc: Global,
    text: &[u8],
    symbols: &Symbols,
    here: Value,
) -> Result<Value, ExprError>
    requires { IsNotExternal here }
    ensures { Yields model_of_value result (expression (look_up symbols.now) (model_of_value here) text.now) }
{
    if let Some(value) = symbols.register_in(text) {
        return Ok(value);
    }
    if !text.is_empty() {
        let first = match token_at(text, 0) {
            Ok(first) => first,
            Err(error) => return Err(error),
        };
        if first.span.end == text.len() {
            return term_value(&first, text, symbols, &here);
        }
    }
    let found = tokens(alloc, text)?;
    value(found.as_slice(), text, symbols, here)
}
