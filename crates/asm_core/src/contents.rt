//! The bytes of the outcome of a line.

ghost use Rattle.std.specs.Prelude.{◌≡◌, ◌≤◌, ◌+◌, ◌*◌, map, length, IfOk, OnOk, IsTrue};
ghost use Rattle.object_tags.specs.Seen.{model_of_ref};
ghost use Rattle.asm_forms.specs.Placed.{model_of_word, model_of_words};
ghost use Rattle.asm_defs.specs.Memory as spec;
ghost use Rattle.asm_defs.specs.SecondChecks.{Words};
ghost use Rattle.asm_defs.specs.declared.content.Content.TheVariants.{Byte};
ghost use Rattle.asm_checks.specs.Outcomes.{model_of_outcome};

use crate::references::use_name;
use asm_checks::Outcome;
use asm_defs::{Content, Location};
use asm_forms::Word;
use module_image::spot_at;
use object_defs::Spot;
use object_tags::Ref;
use std::alloc::{AllocError, Global};

/// The bytes that a line places at a place, with the last uses of the names that others define.
pub(crate) fn contents(
    alloc: Global,
    references: &mut Vec<Ref>,
    at: Location,
    outcome: &Outcome,
) -> Result<Vec<Content>, AllocError>
    requires placed { IsTrue (spec.is_placed_in at.part) }
    requires within { at.number + spec.bytes_in (model_of_outcome outcome.now) ≤ 65536 }
    ensures contents { OnOk result (IfOk result (λ contents. contents.items
        ≡ spec.contents_by at (map model_of_ref references.old.items) (model_of_outcome outcome.now))) }
    ensures uses { OnOk result (map model_of_ref references.new.items
        ≡ spec.after_by at (map model_of_ref references.old.items) (model_of_outcome outcome.now)) }
{
    match outcome {
        Outcome::Instruction(placed) => {
            word_contents(alloc, references, at, placed.words.as_slice())
        }
        Outcome::Words(words) => word_contents(alloc, references, at, words.as_slice()),
        Outcome::Bytes(bytes) => byte_contents(alloc, bytes.as_slice()),
        Outcome::Nothing | Outcome::Entry(_) => Ok(Vec::new(alloc)),
    }
}

/// The bytes of bytes.
fn byte_contents(alloc: Global, bytes: &[u8]) -> Result<Vec<Content>, AllocError>
    ensures { IfOk result (λ contents. contents.items ≡ map Byte bytes.now) }
{
    let mut contents = Vec::new(alloc);
    let mut rest = bytes;
    while let [byte, others @ ..] = rest {
        contents.push(Content::Byte(*byte))?;
        rest = others;
    }
    Ok(contents)
}

/// The bytes of words, of which the first is at a place.
fn word_contents(
    alloc: Global,
    references: &mut Vec<Ref>,
    at: Location,
    words: &[Word],
) -> Result<Vec<Content>, AllocError>
    requires { at.number + 2 * length words.now ≤ 65536 }
    ensures contents { OnOk result (IfOk result (λ contents. contents.items
        ≡ spec.contents_by at (map model_of_ref references.old.items) (Words (model_of_words words.now)))) }
    ensures uses { OnOk result (map model_of_ref references.new.items
        ≡ (spec.words_at at.part (map model_of_ref references.old.items) at.number (model_of_words words.now)).1) }
{
    let mut contents = Vec::new(alloc);
    let mut place = at.number;
    let mut rest = words;
    while let [word, others @ ..] = rest {
        let spot = spot_of(references, spot_at(at.part, place), word);
        contents.push(Content::First(spot))?;
        contents.push(Content::Second)?;
        place += 2;
        rest = others;
    }
    Ok(contents)
}

/// What is in a word at a place.
fn spot_of(references: &mut Vec<Ref>, at: Spot, word: &Word) -> Spot
    ensures spot { result ≡ spec.word_of (map model_of_ref references.old.items) (model_of_word word.now) }
    ensures uses { map model_of_ref references.new.items
        ≡ spec.after_word (map model_of_ref references.old.items) at (model_of_word word.now) }
{
    match word {
        Word::Plain(number) => Spot::Absolute(*number),
        Word::Relocatable(number) => Spot::Relocatable(*number),
        Word::External(name) => use_name(references, name, at),
    }
}
