//! The value of a term.

ghost use Rattle.std.specs.Prelude.{◌≡◌};
ghost use Rattle.std.specs.Option.{option_map};
ghost use Rattle.source_defs.specs.Lines.{IsInside};
ghost use Rattle.expression_defs.specs.Expression as spec;
ghost use Rattle.expression_defs.specs.Symbols.{look_up};
ghost use Rattle.expression_defs.proofs.CharacterLaws.{first_character};
ghost use Rattle.asm_text.specs.GivenTokens.{model_of_token};
ghost use Rattle.asm_text.specs.GivenValues.{model_of_value, model_of_value_answer};

use crate::expressions::symbols::Symbols;
use crate::expressions::token::{Token, TokenKind};
use crate::expressions::values::Value;
use crate::name::Name;
use crate::operand_fields::quoted_texts::between_quotes;
use expression_defs::ExprError;

/// The first character of a text, where two quotes are one, and what comes after it.
fn first_character(text: &[u8]) -> Option<(u8, &[u8])>
    ensures { option_map (λ found. (found.0, found.1.now)) result ≡ first_character text.now }
{
    match text {
        [] => None,
        [b'\'', b'\'', others @ ..] => Some((b'\'', others)),
        [first, others @ ..] => Some((*first, others)),
    }
}

/// The value of a quoted text: one or two characters, one character in the low byte.
fn text_value(quoted: &[u8]) -> Result<Value, ExprError>
    ensures { model_of_value_answer result ≡ spec.characters_value (spec.characters quoted.now) }
{
    let Some((first, others)) = first_character(between_quotes(quoted)) else {
        return Err(ExprError::BadToken);
    };
    match first_character(others) {
        None => Ok(Value::Absolute(u16::from(first))),
        Some((second, [])) => Ok(Value::Absolute(u16::from_be_bytes([first, second]))),
        Some(_) => Err(ExprError::BadToken),
    }
}

/// The value of a term.
#[inline(always)]
pub(crate) fn term_value(
    token: &Token,
    line: &[u8],
    symbols: &Symbols,
    here: &Value,
) -> Result<Value, ExprError>
    requires { IsInside line.now token.now.span }
    ensures { model_of_value_answer result
        ≡ spec.term_value (look_up symbols.now) (model_of_value here.now) line.now (model_of_token token.now) }
{
    match &token.kind {
        TokenKind::Number(number) => Ok(Value::Absolute(*number)),
        TokenKind::Name(name) => known_value(symbols, name),
        TokenKind::Here => Ok(*here),
        TokenKind::Text => text_value(&line[token.span.start..token.span.end]),
        TokenKind::Sign(_) => Err(ExprError::BadToken),
    }
}

/// The value of a name.
fn known_value(symbols: &Symbols, name: &Name) -> Result<Value, ExprError>
    ensures { model_of_value_answer result ≡ spec.known_value (look_up symbols.now name.now) }
{
    match symbols.get(name) {
        Some(value) => Ok(value),
        None => Err(ExprError::UnknownName),
    }
}
