//! Texts in quotes, and their characters.

ghost use Rattle.std.specs.Prelude.{◌≡◌, ◌≤◌, false, length, IfOk};
ghost use Rattle.source_defs.specs.Refusals.{map_ok};
ghost use Rattle.source_defs.specs.QuotedTexts as spec;
ghost use Rattle.expression_defs.specs.Expression as expressions;

use crate::characters::is_quote;
use source_defs::OperandError;
use std::alloc::{AllocError, Global};

/// An operand that is a text in quotes.
///
/// # Errors
/// `Form` comes where it is none.
pub fn quoted(text: &[u8]) -> Result<&[u8], OperandError>
    ensures text { map_ok (λ found. found.now) result ≡ spec.quoted text.now }
    ensures same { IfOk result (λ found. found.now ≡ text.now) }
{
    if is_quoted(text) {
        Ok(text)
    } else {
        Err(OperandError::Form)
    }
}

/// Whether a text is in quotes, where two quotes inside it are one.
pub fn is_quoted(text: &[u8]) -> bool
    ensures { result ≡ spec.is_quoted text.now }
{
    match text {
        [first, others @ ..] => is_quote(*first) && closes(others),
        [] => false,
    }
}

/// Whether what comes after the first quote of a text ends with the quote that closes it.
fn closes(text: &[u8]) -> bool
    ensures { result ≡ spec.closes false text.now }
{
    let mut quote = false;
    for &byte in text {
        if is_quote(byte) {
            quote = !quote;
        } else if quote {
            return false;
        }
    }
    quote
}

/// How many characters a quoted text has, where two quotes in it are one.
pub fn character_count(quoted: &[u8]) -> usize
    ensures count { result ≡ length (expressions.characters quoted.now) }
    ensures most { result ≤ length quoted.now }
{
    let mut count = 0;
    let mut quote = false;
    for &byte in between_quotes(quoted) {
        quote = is_quote(byte) && !quote;
        if quote || !is_quote(byte) {
            count += 1;
        }
    }
    count
}

/// The characters of a quoted text, where two quotes in it are one.
pub fn quoted_characters(alloc: Global, quoted: &[u8]) -> Result<Vec<u8>, AllocError>
    ensures { IfOk result (λ characters. characters.items ≡ expressions.characters quoted.now) }
{
    let mut characters = Vec::new(alloc);
    let mut quote = false;
    for &byte in between_quotes(quoted) {
        quote = is_quote(byte) && !quote;
        if quote || !is_quote(byte) {
            characters.push(byte)?;
        }
    }
    Ok(characters)
}

/// What is between the first and the last byte of a text, which are its quotes.
pub fn between_quotes(quoted: &[u8]) -> &[u8]
    ensures { result.now ≡ expressions.between_quotes quoted.now }
{
    if quoted.len() < 2 {
        &[]
    } else {
        &quoted[1..quoted.len() - 1]
    }
}
