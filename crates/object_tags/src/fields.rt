//! The fields after a tag.

ghost use Rattle.std.specs.Prelude.{◌≡◌, IsTrue, length, take, drop};
ghost use Rattle.source_defs.specs.Names as names;
ghost use Rattle.source_defs.specs.Numbers.{all_hexadecimal_digits, value_after};
ghost use Rattle.source_defs.specs.Numbers as numbers;
ghost use Rattle.object_defs.specs.Fields as spec;

use crate::module_name::{ModuleName, all_name_characters};
use asm_text::{Name, is_blank, is_printed};
use object_defs::{TagCause, TextForm};

/// The first `count` bytes, or all where there are fewer.
pub(crate) fn front(bytes: &[u8], count: usize) -> &[u8]
    ensures { result.now ≡ take count bytes.now }
{
    if count < bytes.len() {
        &bytes[..count]
    } else {
        bytes
    }
}

/// What comes after the first `count` bytes.
pub(crate) fn after(bytes: &[u8], count: usize) -> &[u8]
    ensures { result.now ≡ drop count bytes.now }
{
    if count < bytes.len() {
        &bytes[count..]
    } else {
        &[]
    }
}

/// How many characters a number takes.
pub(crate) fn number_size(form: TextForm) -> usize
    ensures { result ≡ spec.number_size form }
{
    match form {
        TextForm::Plain => 4,
        TextForm::Compressed => 2,
    }
}

/// The number in front.
///
/// `BadDigit` comes where one of its characters is no digit, and else `ShortField` where there are too few.
pub(crate) fn number_at(form: TextForm, fields: &[u8]) -> Result<u16, TagCause>
    ensures { result ≡ spec.number_at form fields.now }
{
    match form {
        TextForm::Plain => digits_at(fields),
        TextForm::Compressed => two_bytes_at(fields),
    }
}

/// The number of the two bytes in front, or `ShortField` where there are fewer.
#[tactic(auto, unfolding(object_defs::specs::Fields::two_bytes_at))]
fn two_bytes_at(fields: &[u8]) -> Result<u16, TagCause>
    ensures { result ≡ spec.two_bytes_at fields.now }
{
    match fields {
        [high, low, ..] => Ok(u16::from_be_bytes([*high, *low])),
        _ => Err(TagCause::ShortField),
    }
}

/// The number of the four digits in front.
///
/// `BadDigit` comes where one of them is no digit of either case, and else `ShortField` where there are fewer.
#[tactic(auto, unfolding(object_defs::specs::Fields::digits_at))]
fn digits_at(fields: &[u8]) -> Result<u16, TagCause>
    ensures { result ≡ spec.digits_at fields.now }
{
    let digits = front(fields, 4);
    if !all_hexadecimal_digits(digits) {
        return Err(TagCause::BadDigit);
    }
    if digits.len() < 4 {
        return Err(TagCause::ShortField);
    }
    Ok(four_digits(digits))
}

fn all_hexadecimal_digits(bytes: &[u8]) -> bool
    ensures { result ≡ all_hexadecimal_digits bytes.now }
{
    bytes.iter().all(|&byte| is_hexadecimal_digit(byte))
}

fn is_hexadecimal_digit(byte: u8) -> bool
    ensures { result ≡ numbers.is_hexadecimal_digit byte }
{
    byte.is_ascii_hexdigit()
}

fn four_digits(digits: &[u8]) -> u16
    requires size { length digits.now ≡ 4 }
    requires digits { IsTrue (all_hexadecimal_digits digits.now) }
    ensures { result ≡ value_after 16 0 digits.now }
{
    let mut bytes = [0; 2];
    hex::decode_to_slice(digits, &mut bytes).unwrap();
    u16::from_be_bytes(bytes)
}

/// The module's name after the number.
///
/// `BadTag` comes where one of its characters is none of a name, and else `ShortField` where there are fewer than
/// eight.
#[tactic(auto, unfolding(object_defs::specs::Fields::module_name_at))]
pub(crate) fn module_name_at(form: TextForm, tag: u8, fields: &[u8]) -> Result<ModuleName, TagCause>
    ensures { result ≡ spec.module_name_at form tag fields.now }
{
    let name = front(after(fields, number_size(form)), 8);
    if !all_name_characters(name) {
        return Err(TagCause::BadTag(tag));
    }
    ModuleName::read(name).ok_or(TagCause::ShortField)
}

/// The name of a DEF or a REF after the number.
///
/// `BadTag` comes where a character that is not a blank at the end is none of a name, and where there are blanks alone;
/// else `ShortField` where there are fewer than six.
#[tactic(auto, unfolding(object_defs::specs::Fields::symbol_at))]
pub(crate) fn symbol_at(form: TextForm, tag: u8, fields: &[u8]) -> Result<Name, TagCause>
    ensures { result ≡ spec.symbol_at form tag fields.now }
{
    let field = front(after(fields, number_size(form)), 6);
    let name = trim_trailing_blanks(field);
    if field.len() < 6 && all_printed(name) {
        return Err(TagCause::ShortField);
    }
    Name::read(name).ok_or(TagCause::BadTag(tag))
}

fn all_printed(bytes: &[u8]) -> bool
    ensures { result ≡ names.all_printed bytes.now }
{
    bytes.iter().all(|&byte| is_printed(byte))
}

/// The bytes without the blanks at their end.
#[tactic(auto, using(crate::proofs::Blanks::trimming))]
fn trim_trailing_blanks(field: &[u8]) -> &[u8]
    ensures { result.now ≡ spec.trim_trailing_blanks field.now }
{
    let mut end = field.len();
    while end > 0 && is_blank(field[end - 1]) {
        end -= 1;
    }
    &field[..end]
}

/// Whether each of the bytes is a blank.
pub(crate) fn all_blank(bytes: &[u8]) -> bool
    ensures { result ≡ spec.all_blank bytes.now }
{
    bytes.iter().all(|&byte| is_blank(byte))
}
