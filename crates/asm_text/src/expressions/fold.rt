//! The value of tokens.

ghost use Rattle.std.specs.Prelude.{◌≡◌, ◌≢◌, ◌≤◌, ◌<◌, ◌∷◌, length, map, Ok, Err, IfSome};
ghost use Rattle.std.specs.Option.{IfNone};
ghost use Rattle.expression_defs.specs.Tokens as scanned;
ghost use Rattle.expression_defs.specs.Expression as spec;
ghost use Rattle.expression_defs.specs.Symbols.{look_up};
ghost use Rattle.asm_text.specs.GivenTokens.{model_of_kind, model_of_token, TokensLieInside};
ghost use Rattle.asm_text.specs.GivenValues.{model_of_value, model_of_value_answer, IsNotExternal};

use crate::expressions::arithmetic::{joined, minus};
use crate::expressions::evaluate::term_value;
use crate::expressions::symbols::Symbols;
use crate::expressions::token::{Token, TokenKind};
use crate::expressions::values::Value;
use expression_defs::ExprError;

/// The value of the tokens of a line: an optional minus sign and a term, then operators with terms, from left to right
/// without precedence (Editor/Assembler manual, "Expressions"). `$` stands for `here`. It takes no memory.
///
/// # Errors
/// The first refusal from the left, and a term's own before that of joining it. `BadToken`: a token out of its place, a
/// missing term, or a text that is not one or two characters. `UnknownName`: a name that stands for nothing.
/// `BadRelocation`: values that are joined in a way that their kinds do not allow. `DivideByZero`: a division by 0.
/// `TooLarge` and `Memory` never come.
#[tactic(auto, using(crate::proofs::Inside::tokens_lie_inside))]
pub fn value(
    tokens: &[Token],
    line: &[u8],
    symbols: &Symbols,
    here: Value,
) -> Result<Value, ExprError>
    requires read { scanned.tokens line.now ≡ Ok (map model_of_token tokens.now) }
    requires here { IsNotExternal here }
    ensures { model_of_value_answer result
        ≡ spec.value (look_up symbols.now) (model_of_value here) line.now (map model_of_token tokens.now) }
{
    signed_value(tokens, line, symbols, &here)
}

/// The value of tokens that lie inside their line.
fn signed_value(
    tokens: &[Token],
    line: &[u8],
    symbols: &Symbols,
    here: &Value,
) -> Result<Value, ExprError>
    requires { TokensLieInside line.now tokens.now }
    ensures { model_of_value_answer result
        ≡ spec.value (look_up symbols.now) (model_of_value here.now) line.now (map model_of_token tokens.now) }
{
    match first_token(tokens) {
        None => Err(ExprError::BadToken),
        Some((sign, others)) if is_minus(sign) => minus_value(others, line, symbols, here),
        Some((term, others)) => {
            let total = term_value(term, line, symbols, here)?;
            value_with(total, others, line, symbols, here)
        }
    }
}

/// The value of a minus sign and what comes after it.
fn minus_value(
    tokens: &[Token],
    line: &[u8],
    symbols: &Symbols,
    here: &Value,
) -> Result<Value, ExprError>
    requires { TokensLieInside line.now tokens.now }
    ensures { model_of_value_answer result
        ≡ spec.minus_value (look_up symbols.now) (model_of_value here.now) line.now (map model_of_token tokens.now) }
{
    match first_token(tokens) {
        None => Err(ExprError::BadToken),
        Some((term, others)) => {
            let total = minus(term_value(term, line, symbols, here)?)?;
            value_with(total, others, line, symbols, here)
        }
    }
}

/// A value, then operators with terms.
fn value_with(
    first: Value,
    tokens: &[Token],
    line: &[u8],
    symbols: &Symbols,
    here: &Value,
) -> Result<Value, ExprError>
    requires { TokensLieInside line.now tokens.now }
    ensures { model_of_value_answer result
        ≡ spec.value_with (look_up symbols.now) (model_of_value here.now) line.now (model_of_value first)
        (map model_of_token tokens.now) }
{
    let mut total = first;
    let mut rest = tokens;
    while let Some((operator, term, others)) = first_tokens(rest) {
        let operator = operator_of(operator)?;
        let next = term_value(term, line, symbols, here)?;
        total = joined(operator, total, next)?;
        rest = others;
    }
    if rest.is_empty() {
        Ok(total)
    } else {
        Err(ExprError::BadToken)
    }
}

/// The first token and the others.
fn first_token(tokens: &[Token]) -> Option<(&Token, &[Token])>
    ensures some { IfSome result (λ found. tokens.now ≡ found.0.now ∷ found.1.now) }
    ensures none { IfNone result (length tokens.now ≡ 0) }
{
    tokens.split_first()
}

/// The first two tokens and the others.
fn first_tokens(tokens: &[Token]) -> Option<(&Token, &Token, &[Token])>
    ensures some { IfSome result (λ found. tokens.now ≡ found.0.now ∷ found.1.now ∷ found.2.now) }
    ensures none { IfNone result (length tokens.now < 2) }
{
    let (first, others) = first_token(tokens)?;
    let (second, others) = first_token(others)?;
    Some((first, second, others))
}

/// Whether a token is a minus sign.
fn is_minus(token: &Token) -> bool
    ensures { result ≡ spec.is_minus (model_of_kind token.now.kind) }
{
    matches!(token.kind, TokenKind::Sign(b'-'))
}

/// The operator that a token is.
fn operator_of(token: &Token) -> Result<u8, ExprError>
    ensures { result ≡ spec.operator_of (model_of_kind token.now.kind) }
{
    match token.kind {
        TokenKind::Sign(operator) => Ok(operator),
        _ => Err(ExprError::BadToken),
    }
}
