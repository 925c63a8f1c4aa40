//! The words of an instruction line.

ghost use Rattle.std.specs.Prelude.{◌≡◌, ◌≤◌, ◌+◌, ◌++◌, ◌∷◌, [], length};
ghost use Rattle.arrayvec.specs.ArrayVec.{array_vec_len};
ghost use Rattle.tms_defs.specs.Instructions.{word_of as word_of_instr};
ghost use Rattle.expression_defs.specs.Expression.{Absolute};
ghost use Rattle.asm_text.specs.GivenValues.{model_of_value};
ghost use Rattle.instruction_defs.specs.SecondChecks as spec;
ghost use Rattle.asm_forms.specs.Placed.{model_of_word, model_of_words, placed_words, encoded_words, placed_of, placed_answer};
ghost use Rattle.asm_forms.specs.UpToTwo.{items_of};
ghost use Rattle.asm_forms.specs.Values.{model_of_operand, model_of_ready, AllReady};

use crate::instruction::instruction_of;
use crate::ranges::{EncodedOperand, all_ranged};
use crate::up_to_two::UpToTwo;
use crate::values::Operand;
use arrayvec::ArrayVec;
use asm_text::{Name, Value};
use instruction_defs::FormError;
use tms_defs::Operation;
use tms_words::encode;

/// A word that a line places.
#[derive(Clone, Copy, Debug, PartialEq, Eq)]
pub enum Word {
    /// The word itself.
    Plain(u16),
    /// A number that moves with the relocatable code of its module.
    Relocatable(u16),
    /// The value of an external name.
    External(Name),
}

impl Default for Word {
    ghost is_default = { λ word. model_of_word word ≡ Absolute 0 };

    /// The word 0.
    fn default() -> Self {
        Word::Plain(0)
    }
}

/// The words that a line places, one to three.
#[derive(Debug, Drop)]
pub struct Placed {
    /// The words, in order.
    pub words: ArrayVec<Word, 3>,
}

/// A line of one word.
pub(crate) fn one_word(word: u16) -> Placed
    ensures { placed_words result ≡ Absolute word ∷ [] }
{
    let mut words = ArrayVec::new();
    words.push(Word::Plain(word));
    Placed { words }
}

/// The words of an operation with its operands, where these are in their ranges.
pub(crate) fn in_range_words(
    here: &Value,
    operation: Operation,
    operands: UpToTwo<Operand>,
) -> Result<Placed, FormError>
    ensures { placed_answer result
        ≡ placed_of (model_of_value here.now) operation (items_of model_of_operand operands) }
{
    let readies = all_ranged(here, operands)?;
    Ok(instruction_words(operation, &readies))
}

/// The words of an operation with its operands.
#[tactic(auto, using(std::proofs::Common::append_assoc))]
fn instruction_words(operation: Operation, readies: &UpToTwo<EncodedOperand>) -> Placed
    requires { AllReady readies.now }
    ensures { placed_words result ≡ encoded_words operation (items_of model_of_ready readies.now) }
{
    let instr = instruction_of(operation, readies);
    let mut words = ArrayVec::new();
    words.push(Word::Plain(encode(&instr)));
    match readies {
        UpToTwo::None => {}
        UpToTwo::One(ready) => push_following(&mut words, ready),
        UpToTwo::Two(ready, next) => {
            push_following(&mut words, ready);
            push_following(&mut words, next);
        }
    }
    Placed { words }
}

/// Appends the word that follows for an operand, where one does.
fn push_following(words: &mut ArrayVec<Word, 3>, ready: &EncodedOperand)
    requires { array_vec_len words.old + 1 ≤ 3 }
    ensures words { model_of_words words.new.items
        ≡ model_of_words words.old.items ++ spec.following_in (model_of_ready ready.now) }
    ensures size { array_vec_len words.new ≤ array_vec_len words.old + 1 }
{
    match ready {
        EncodedOperand::Addressed(_, value) | EncodedOperand::Followed(value) => words.push(word_of(
            value,
        )),
        EncodedOperand::Located(_) | EncodedOperand::Counted(_) | EncodedOperand::Displaced(_) => {}
    }
}

/// The word of a value.
fn word_of(value: &Value) -> Word
    ensures { model_of_word result ≡ model_of_value value.now }
{
    match value {
        Value::Absolute(number) => Word::Plain(*number),
        Value::Relocatable(place) => Word::Relocatable(*place),
        Value::External(name) => Word::External(*name),
    }
}
