//! A line as fields.

ghost use Rattle.std.specs.Prelude.{◌≡◌, ◌≤◌, ◌<◌, ◌-◌, ◌++◌, ◌↔◌};
ghost use Rattle.std.specs.Prelude.{ℕ, Some, None, length, take, map, replicate};
ghost use Rattle.std.specs.Prelude.{is_some, IfOk, IfSome, if◌then◌else◌};
ghost use Rattle.source_defs.specs.Fields as spec;
ghost use Rattle.source_defs.specs.Characters.{upper_case};
ghost use Rattle.source_defs.specs.Names.{all_letters_or_digits, is_letter_or_digit, is_name, IsUpperCaseName};
ghost use Rattle.asm_text.specs.GivenFields.{model_of_fields, model_of_answer, FieldsLieInside};

use crate::characters::{is_asterisk, is_blank, is_letter, upper_case};
use crate::name::{KEPT_BYTES, LONGEST_NAME, Name};
use crate::places::{operand_end, word_end, word_start};
use crate::text_lines::line_fields::{Fields, SplitLine};
use source_defs::{Span, TextError};

/// The most bytes that a line has.
const LONGEST_LINE: usize = 256;

/// The fields of a line: a label from column 1 on, the operation, and the operand field up to a blank
/// outside quotes, apart by blanks (Editor/Assembler manual, "Source Statement Format"). A blank line,
/// and one with an asterisk in column 1, has none.
///
/// `LineTooLong` comes for more than 256 bytes, and only then. `BadLabel` comes where column 1 holds
/// neither a blank nor an asterisk and what is there up to a blank is no name, and only then.
#[tactic(auto, using(source_defs::proofs::FieldLaws::no_comment), unfolding(source_defs::specs::Fields::fields))]
#[inline(always)]
pub fn fields(line: &[u8]) -> Result<Fields, TextError>
    ensures value { model_of_answer result ≡ spec.fields line.now }
    ensures too_long { (result ≡ Err TextError.LineTooLong) ↔ (spec.longest_line < length line.now) }
    ensures bad_label { (result ≡ Err TextError.BadLabel) ↔ spec.HasBadLabel line.now }
    ensures inside { IfOk result (FieldsLieInside line.now) }
    ensures names { IfOk result (λ found. IfSome found.label IsUpperCaseName) }
{
    if line.len() > LONGEST_LINE {
        return Err(TextError::LineTooLong);
    }
    let start = word_start(line, 0);
    if is_comment(line, start) {
        return Ok(Fields {
            label: None,
            operation: None,
            operands: Span { start: 0, end: 0 },
        });
    }
    if is_blank(line[0]) {
        return Ok(fields_at(line, None, start));
    }
    let end = word_end(line, 0);
    match upper_case_name(&line[..end]) {
        Some(name) => Ok(fields_at(line, Some(name), word_start(line, end))),
        None => Err(TextError::BadLabel),
    }
}

/// A line with its fields.
pub fn split_line(line: &[u8]) -> SplitLine<'_>
    ensures { result.text.now ≡ line.now }
{
    SplitLine {
        text: line,
        fields: fields(line),
    }
}

/// Whether a line is blank or has an asterisk in column 1, by the place of its first byte that is no blank.
fn is_comment(line: &[u8], start: usize) -> bool
    requires { start ≡ spec.word_start line.now 0 }
    ensures { result ≡ spec.is_comment line.now }
{
    start == line.len() || is_asterisk(line[0])
}

/// The fields of a line whose operation, if it has one, begins at a place, the first after its label that is no blank.
#[tactic(auto, using(source_defs::proofs::LeastLaws::least_bounds))]
fn fields_at(line: &[u8], label: Option<Name>, start: usize) -> Fields
    requires { start ≤ length line.now }
    ensures value { (from : ℕ) → start ≡ spec.word_start line.now from →
        model_of_fields result ≡ spec.fields_after line.now label from }
    ensures inside { FieldsLieInside line.now result }
{
    let end = word_end(line, start);
    let operands = word_start(line, end);
    Fields {
        label,
        operation: if start < line.len() {
            Some(Span { start, end })
        } else {
            None
        },
        operands: Span {
            start: operands,
            end: operand_end(line, operands),
        },
    }
}

/// The name that a text is, in upper case.
#[tactic(auto, using(source_defs::proofs::FieldLaws::upper_case_kept, source_defs::proofs::FieldLaws::upper_case_name))]
pub fn upper_case_name(field: &[u8]) -> Option<Name>
    ensures value { result ≡ (if is_name field.now then Some (map upper_case field.now) else None) }
    ensures names { IfSome result IsUpperCaseName }
{
    if field.is_empty() || field.len() > LONGEST_NAME || !is_letter(field[0]) {
        return None;
    }
    let letters = in_upper_case(field)?;
    Some(Name::of_padded(letters, field.len()))
}

/// The letters and digits of a label field in upper case, followed by zeros; none where another character is there.
fn in_upper_case(field: &[u8]) -> Option<[u8; KEPT_BYTES]>
    requires { length field.now ≤ 6 }
    ensures all { is_some result ≡ all_letters_or_digits field.now }
    ensures upper { IfSome result (λ letters. take (length field.now) letters ≡ map upper_case field.now) }
    ensures padded { IfSome result (λ letters. letters
        ≡ take (length field.now) letters ++ replicate (8 - length field.now) 0) }
{
    let mut letters = [0; KEPT_BYTES];
    for (at, &byte) in field.iter().enumerate() {
        letters[at] = letter_or_digit(byte)?;
    }
    Some(letters)
}

/// A letter in upper case, or a digit; none for another character.
fn letter_or_digit(byte: u8) -> Option<u8>
    ensures known { is_some result ≡ is_letter_or_digit byte }
    ensures upper { IfSome result (λ letter. letter ≡ upper_case byte) }
{
    match byte {
        b'0'..=b'9' | b'A'..=b'Z' => Some(byte),
        b'a'..=b'z' => Some(upper_case(byte)),
        _ => None,
    }
}
