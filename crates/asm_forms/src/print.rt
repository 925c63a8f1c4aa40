//! The text of an instruction.

ghost use Rattle.std.specs.Prelude.{◌≡◌, ◌<◌, ◌≤◌, ◌+◌, [], length};
ghost use Rattle.arrayvec.specs.ArrayString.{array_string_len};
ghost use Rattle.tms_defs.specs.Instructions.{HasRoom};
ghost use Rattle.instruction_defs.specs.Operands.{size_in_words};
ghost use Rattle.instruction_defs.specs.Printed as spec;

use crate::operands_text::push_operands;
use crate::operations::{name_of, operation_of};
use crate::sizes::size_in_words;
use crate::text::Text;
use arrayvec::ArrayString;
use asm_text::push_word;
use tms_defs::Instr;
use tms_words::decode;

/// The text of the instruction at the front of some words, of which the first is at the address `at`, and how many
/// of the words it has (1 to 3). Where the front is no whole instruction, the text is DATA with the first word, and the
/// count is 1. A jump's target is shown by its address, with 16 bits. Editor/Assembler manual, "Assembly Language
/// Instructions".
pub fn print_instr(words: &[u16], at: u16) -> (ArrayString<64>, u8)
    requires { 0 < length words.now }
    ensures text { result.0.bytes ≡ (spec.printed words.now at).text }
    ensures count { result.1 ≡ (spec.printed words.now at).count }
{
    let mut text = Text::new();
    let count = push_front(&mut text, words, at);
    (text, count)
}

/// Writes what is at the front of some words into an empty text, and says how many of the words that is.
#[tactic(auto, unfolding(instruction_defs::specs::Printed::printed))]
fn push_front(text: &mut Text, words: &[u16], at: u16) -> u8
    requires empty { text.old.bytes ≡ [] }
    requires words { 0 < length words.now }
    ensures text { text.new.bytes ≡ (spec.printed words.now at).text }
    ensures count { result ≡ (spec.printed words.now at).count }
{
    if let Some(instr) = decode(words[0]) {
        let count = size_in_words(&instr);
        if usize::from(count) <= words.len() {
            push_instr(text, &instr, at, words);
            return count;
        }
    }
    push_data(text, words[0]);
    1
}

/// Writes DATA with a word into an empty text.
fn push_data(text: &mut Text, word: u16)
    requires { text.old.bytes ≡ [] }
    ensures { text.new.bytes ≡ (spec.printed_word word).text }
{
    text.push_str("DATA ");
    push_word(text, word);
}

/// Writes an operation with its operands into an empty text.
fn push_instr(text: &mut Text, instr: &Instr, at: u16, words: &[u16])
    requires empty { text.old.bytes ≡ [] }
    requires instr { HasRoom instr.now }
    ensures { text.new.bytes ≡ spec.instr_text instr.now at words.now }
{
    text.push_str(name_of(operation_of(instr)));
    push_operands(text, instr, at, words);
}
