//! A text as tokens.

ghost use Rattle.std.specs.Prelude.{◌≡◌, ◌≢◌, ◌≤◌, ◌<◌, ◌+◌, ◌-◌, ◌++◌, ◌∷◌, [], length, map, Ok, Err, IfOk, OnOk};
ghost use Rattle.std.specs.Prelude.{IfErr};
ghost use Rattle.expression_defs.specs.Tokens as spec;
ghost use Rattle.expression_defs.specs.TokenLaw.{Follow};
ghost use Rattle.asm_text.specs.GivenTokens.{model_of_kind, model_of_token, model_of_token_answer};

use crate::characters::{is_letter, is_quote};
use crate::expressions::token::{Token, TokenKind};
use crate::numbers::{decimal_up_to, hexadecimal_number};
use crate::places::{digits_end, hexadecimal_end, name_end, text_end};
use crate::text_lines::split::upper_case_name;
use expression_defs::ExprError;
use source_defs::Span;
use std::alloc::Global;

/// The tokens of a text, one after the other: numbers, names of at most six characters, `$`, quoted texts and the
/// operators `+ - * /` (Editor/Assembler manual, "Expressions", "Constants" and "Symbols").
///
/// # Errors
/// The first bad place is refused: `TooLarge` for a decimal number above 65,535 or more than four hexadecimal digits,
/// `BadToken` where no token can be read. `Memory` means that memory ran out.
pub fn tokens(alloc: Global, text: &[u8]) -> Result<Vec<Token>, ExprError>
    ensures found { IfOk result (λ found. spec.tokens text.now ≡ Ok (map model_of_token found.items)) }
    ensures cause { IfErr result (λ cause. cause ≢ ExprError.Memory → spec.tokens text.now ≡ Err cause) }
    ensures order { IfOk result (λ found. Follow text.now 0 (map model_of_token found.items)) }
{
    let mut found = Vec::new(alloc);
    let mut start = 0;
    while start < text.len() {
        let token = token_at(text, start)?;
        start = token.span.end;
        // not `push`, which hands the token back where memory runs out: the prover cannot follow that
        if found.extend_from_slice(&[token]).is_err() {
            return Err(ExprError::Memory);
        }
    }
    Ok(found)
}

/// The token that starts at a place.
#[tactic(auto, unfolding(expression_defs::specs::Tokens::token_at))]
#[inline(always)]
pub(crate) fn token_at(text: &[u8], start: usize) -> Result<Token, ExprError>
    requires { start < length text.now }
    ensures { model_of_token_answer result ≡ spec.token_at text.now start }
{
    match text[start] {
        b'>' => hexadecimal_token(text, start),
        b'0'..=b'9' => decimal_token(text, start),
        byte if is_letter(byte) => name_token(text, start),
        byte if is_quote(byte) => text_token(text, start),
        b'$' => Ok(token_to(TokenKind::Here, start, start + 1)),
        byte if is_operator(byte) => Ok(token_to(TokenKind::Sign(byte), start, start + 1)),
        _ => Err(ExprError::BadToken),
    }
}

fn is_operator(byte: u8) -> bool
    ensures { result ≡ spec.is_operator byte }
{
    byte == b'+' || byte == b'-' || byte == b'*' || byte == b'/'
}

fn token_to(kind: TokenKind, start: usize, end: usize) -> Token
    ensures { model_of_token result ≡ spec.token_to (model_of_kind kind) start end }
{
    Token {
        kind,
        span: Span { start, end },
    }
}

/// A decimal number: the longest run of digits.
fn decimal_token(text: &[u8], start: usize) -> Result<Token, ExprError>
    requires { start < length text.now }
    ensures { model_of_token_answer result ≡ spec.decimal_token text.now start }
{
    let end = digits_end(text, start);
    match decimal_up_to(&text[start..end], 65535) {
        Some(number) => Ok(token_to(TokenKind::Number(number as u16), start, end)),
        None => Err(ExprError::TooLarge),
    }
}

/// A hexadecimal number: the longest run of hexadecimal digits after its sign.
fn hexadecimal_token(text: &[u8], start: usize) -> Result<Token, ExprError>
    requires { start < length text.now }
    ensures { model_of_token_answer result ≡ spec.hexadecimal_token text.now start }
{
    let end = hexadecimal_end(text, start + 1);
    if end == start + 1 {
        return Err(ExprError::BadToken);
    }
    match hexadecimal_number(&text[start + 1..end]) {
        Some(number) => Ok(token_to(TokenKind::Number(number), start, end)),
        None => Err(ExprError::TooLarge),
    }
}

/// A name: the longest run of letters and digits.
fn name_token(text: &[u8], start: usize) -> Result<Token, ExprError>
    requires { start < length text.now }
    ensures { model_of_token_answer result ≡ spec.name_token text.now start }
{
    let end = name_end(text, start);
    match upper_case_name(&text[start..end]) {
        Some(name) => Ok(token_to(TokenKind::Name(name), start, end)),
        None => Err(ExprError::BadToken),
    }
}

/// A quoted text, with its quotes.
fn text_token(text: &[u8], start: usize) -> Result<Token, ExprError>
    requires { start < length text.now }
    ensures { model_of_token_answer result ≡ spec.text_token text.now start }
{
    match text_end(text, start) {
        Some(end) => Ok(token_to(TokenKind::Text, start, end)),
        None => Err(ExprError::BadToken),
    }
}
