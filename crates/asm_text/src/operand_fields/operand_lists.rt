//! The operands of a field, by how many an operation takes.

ghost use Rattle.std.specs.Prelude.{◌≡◌, ◌≤◌, ◌+◌, length, IfOk};
ghost use Rattle.std.specs.Option.{option_map};
ghost use Rattle.source_defs.specs.Refusals.{map_ok};
ghost use Rattle.source_defs.specs.Operands.{operand_texts};
ghost use Rattle.source_defs.specs.OperandLists as spec;

use crate::operand_fields::operand_field::operands;
use source_defs::OperandError;

/// The one operand of a field.
///
/// # Errors
/// `Count` comes where the field has none or several, and `Form` where its operand is empty.
pub fn one_operand(field: &[u8]) -> Result<&[u8], OperandError>
    ensures text { map_ok (λ text. text.now) result ≡ spec.one_operand (operand_texts field.now) }
    ensures part { IfOk result (λ text. length text.now ≤ length field.now) }
{
    let mut parts = operands(field);
    let (Some(only), None) = (parts.next(), parts.next()) else {
        return Err(OperandError::Count);
    };
    written(&field[only.start..only.end])
}

/// The operand of a field that has one or none.
///
/// # Errors
/// `Count` comes where the field has several, and `Form` where its operand is empty.
pub fn optional_operand(field: &[u8]) -> Result<Option<&[u8]>, OperandError>
    ensures { map_ok (λ text. option_map (λ found. found.now) text) result
        ≡ spec.optional_operand (operand_texts field.now) }
{
    let mut parts = operands(field);
    let Some(only) = parts.next() else {
        return Ok(None);
    };
    if parts.next().is_some() {
        return Err(OperandError::Count);
    }
    let text = written(&field[only.start..only.end])?;
    Ok(Some(text))
}

/// An operand that is not empty.
fn written(text: &[u8]) -> Result<&[u8], OperandError>
    ensures { map_ok (λ found. found.now) result ≡ spec.written text.now }
{
    match text {
        [] => Err(OperandError::Form),
        _ => Ok(text),
    }
}

/// A field of one operand or more, none of which is empty. It is the field itself.
///
/// # Errors
/// `Count` comes where the field has no operand, and `Form` where one is empty.
pub fn operand_list(field: &[u8]) -> Result<&[u8], OperandError>
    ensures texts { map_ok (λ found. operand_texts found.now) result ≡ spec.operand_list (operand_texts field.now) }
    ensures same { IfOk result (λ found. found.now ≡ field.now) }
{
    if field.is_empty() {
        return Err(OperandError::Count);
    }
    if none_empty(field) {
        Ok(field)
    } else {
        Err(OperandError::Form)
    }
}

fn none_empty(field: &[u8]) -> bool
    ensures { result ≡ spec.none_empty (operand_texts field.now) }
{
    for span in operands(field) {
        if span.start == span.end {
            return false;
        }
    }
    true
}

/// How many operands a field of at most 256 bytes has.
#[tactic(auto, using(source_defs::proofs::OperandCounts::operands_le))]
pub fn operand_count(field: &[u8]) -> u32
    requires { length field.now ≤ 256 }
    ensures count { result ≡ length (operand_texts field.now) }
    ensures most { result ≤ 257 }
{
    let mut count = 0;
    for _ in operands(field) {
        count += 1;
    }
    count
}
