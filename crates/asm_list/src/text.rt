//! The text of what a line places.

ghost use Rattle.std.specs.Prelude.{◌≡◌, ◌++◌, IfOk, OnOk};
ghost use Rattle.std.specs.List.{flat_map};
ghost use Rattle.asm_forms.specs.Placed.{model_of_word, model_of_words};
ghost use Rattle.asm_checks.specs.Outcomes.{model_of_outcome};
ghost use Rattle.asm_list_defs.specs.Rows as spec;

use asm_checks::Outcome;
use asm_forms::Word;
use asm_text::{byte_digits, word_digits};
use std::alloc::{AllocError, Global};

/// The text of what a line places.
#[tactic(auto, unfolding(asm_list_defs::specs::Rows::outcome_text))]
pub(crate) fn outcome_text(alloc: Global, outcome: &Outcome) -> Result<Vec<u8>, AllocError>
    ensures { IfOk result (λ text. text.items ≡ spec.outcome_text (model_of_outcome outcome.now)) }
{
    match outcome {
        Outcome::Instruction(placed) => words_text(alloc, placed.words.as_slice()),
        Outcome::Words(words) => words_text(alloc, words.as_slice()),
        Outcome::Bytes(bytes) => bytes_text(alloc, bytes.as_slice()),
        Outcome::Nothing | Outcome::Entry(_) => Ok(Vec::new(alloc)),
    }
}

/// The text of words.
fn words_text(alloc: Global, words: &[Word]) -> Result<Vec<u8>, AllocError>
    ensures { IfOk result (λ text. text.items ≡ flat_map spec.word_text (model_of_words words.now)) }
{
    let mut text = Vec::new(alloc);
    let mut rest = words;
    while let [word, others @ ..] = rest {
        text.extend_from_slice(&word_text(word))?;
        rest = others;
    }
    Ok(text)
}

/// The six columns of a word.
#[tactic(auto, unfolding(asm_list_defs::specs::Rows::word_text, source_defs::specs::Digits::word_digits))]
fn word_text(word: &Word) -> [u8; 6]
    ensures { result ≡ spec.word_text (model_of_word word.now) }
{
    let (digits, mark) = match word {
        Word::Plain(number) => (word_digits(*number), b' '),
        Word::Relocatable(number) => (word_digits(*number), b'\''),
        Word::External(_) => (*b"0000", b'*'),
    };
    [digits[0], digits[1], digits[2], digits[3], mark, b' ']
}

/// The text of bytes.
fn bytes_text(alloc: Global, bytes: &[u8]) -> Result<Vec<u8>, AllocError>
    ensures { IfOk result (λ text. text.items ≡ flat_map spec.byte_text bytes.now) }
{
    let mut text = Vec::new(alloc);
    let mut rest = bytes;
    while let [byte, others @ ..] = rest {
        text.extend_from_slice(&byte_text(*byte))?;
        rest = others;
    }
    Ok(text)
}

/// The three columns of a byte.
#[tactic(auto, unfolding(asm_list_defs::specs::Rows::byte_text, source_defs::specs::Digits::byte_digits))]
fn byte_text(byte: u8) -> [u8; 3]
    ensures { result ≡ spec.byte_text byte }
{
    let digits = byte_digits(byte);
    [digits[0], digits[1], b' ']
}
