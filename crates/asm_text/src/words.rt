//! Words of a text: names, and words that are compared with no heed of case.

ghost use Rattle.std.specs.Prelude.{◌≡◌, ◌+◌, ◌*◌, ◌^◌, ◌<◌, Some};
ghost use Rattle.source_defs.specs.Characters.{upper_case};
ghost use Rattle.source_defs.specs.Names as spec;
ghost use Rattle.asm_text.specs.WordKeys as keys;

use crate::characters::{is_letter, is_letter_or_digit, upper_case};
use crate::name::LONGEST_NAME;

/// Whether a text is the word, but for the case of its letters. The word is given in upper case.
pub fn is_word(text: &[u8], word: &[u8]) -> bool
    ensures { result ≡ spec.is_word text.now word.now }
{
    text.len() == word.len() && same_letters(text, word)
}

fn same_letters(text: &[u8], word: &[u8]) -> bool
    ensures { result ≡ spec.same_letters text.now word.now }
{
    text.iter()
        .zip(word)
        .all(|(&byte, &letter)| upper_case(byte) == letter)
}

/// A text of up to five characters as a number, with its letters in upper case, or `None` where it is longer. Words
/// are compared by it as one number each.
#[inline(always)]
pub fn word_key(text: &[u8]) -> Option<u64>
    ensures { result ≡ keys.word_key text.now }
{
    match text {
        [] => Some(1),
        [a] => Some(after(*a, 1)),
        [a, b] => Some(after(*a, after(*b, 1))),
        [a, b, c] => Some(after(*a, after(*b, after(*c, 1)))),
        [a, b, c, d] => Some(after(*a, after(*b, after(*c, after(*d, 1))))),
        [a, b, c, d, e] => Some(after(*a, after(*b, after(*c, after(*d, after(*e, 1)))))),
        _ => None,
    }
}

/// The number of a name that is written letter by letter, in upper case.
#[macro_export]
macro_rules! name_key {
    () => {
        1
    };
    ($letter:literal $($others:literal)*) => {
        $letter as u64 + 256 * $crate::name_key!($($others)*)
    };
}

/// The row of a table: what a name stands for, after the number of the name.
#[macro_export]
macro_rules! keyed {
    ($($letters:literal)* => $named:expr) => {
        ($crate::name_key!($($letters)*), $named)
    };
}

/// The number of a word by its first letter and the number of the others.
fn after(letter: u8, others: u64) -> u64
    requires { others < 2 ^ 48 }
    ensures key { result ≡ upper_case letter + 256 * others }
    ensures bound { result < 256 * (others + 1) }
{
    u64::from(upper_case(letter)) + 256 * others
}

/// Whether a text is a letter and up to five letters or digits (Editor/Assembler manual, "Symbols").
pub fn is_name(text: &[u8]) -> bool
    ensures { result ≡ spec.is_name text.now }
{
    !text.is_empty()
        && text.len() <= LONGEST_NAME
        && is_letter(text[0])
        && all_letters_or_digits(text)
}

fn all_letters_or_digits(text: &[u8]) -> bool
    ensures { result ≡ spec.all_letters_or_digits text.now }
{
    text.iter().all(|&byte| is_letter_or_digit(byte))
}

/// The first of some things in a table that comes after a number, as after the number of its name.
pub fn named_in<T: Copy>(table: &[(u64, T)], key: u64) -> Option<T>
    ensures { result ≡ keys.with_key (Some key) table.now }
{
    for row in table {
        let (known, named) = *row;
        if key == known {
            return Some(named);
        }
    }
    None
}
