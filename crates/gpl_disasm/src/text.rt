//! The text of an instruction.
ghost use Rattle.std.specs.Prelude.{◌≡◌, ◌≤◌, ◌+◌, ◌++◌, if◌then◌else◌, IsTrue, codes, length};
ghost use Rattle.arrayvec.specs.ArrayString.{array_string_len};
ghost use Rattle.gpl_defs.specs.Codes.{row_of};
ghost use Rattle.gpl_defs.specs.Reading.{reading};
ghost use Rattle.gpl_defs.specs.Valid.{is_valid};
ghost use Rattle.gpl_source_defs.specs.Mnemonics.{name_of_words};
ghost use Rattle.source_defs.specs.Digits.{hex_byte};
ghost use Rattle.source_defs.specs.ListedLines.{two_texts};
ghost use Rattle.gpl_listing_defs.specs.Texts as spec;

use crate::operands::{push_from, push_length, push_operand, push_source, push_target};
use arrayvec::ArrayString;
use asm_text::{push_byte, push_word};
use base_defs::GROM_SIZE;
use gpl_forms::{
    GplInstr, GplOperation, GplRead, MoveLength, MoveSource, MoveTarget, name_of, read_instr,
};

/// The text of a valid instruction that is at the address `at`: the operation, and its operands after a blank. The
/// GROM of `at` completes the target of a BR or BS. GPL Programmer's Guide, the statements.
pub fn instr_text(instr: &GplInstr, at: u16) -> ArrayString<52>
    requires { IsTrue (is_valid instr.now) }
    ensures { result.bytes ≡ spec.instr_text instr.now at }
{
    let mut text = ArrayString::new();
    push_instr(&mut text, instr, at);
    text
}

/// Appends the text of what is at the address `at` of 65,536 bytes: of the instruction there, in whatever spelling
/// it stands, or `BYTE` and the code byte where that is no instruction's.
pub fn push_standing<const N: usize>(text: &mut ArrayString<N>, image: &[u8], at: u16)
    requires size { length image.now ≡ 65536 }
    requires room { array_string_len text.old + 52 ≤ N }
    ensures text { text.new.bytes ≡ text.old.bytes ++ spec.read_text (reading image.now at) at }
    ensures size { array_string_len text.new ≤ array_string_len text.old + 52 }
{
    match read_instr(image, at) {
        GplRead::Instr { instr, .. } => push_instr(text, &instr, at),
        GplRead::Refused(code) => push_byte_text(text, code),
    }
}

/// Appends `BYTE` and a byte.
#[tactic(auto, using(std::proofs::Common::append_assoc))]
pub(crate) fn push_byte_text<const N: usize>(text: &mut ArrayString<N>, byte: u8)
    requires { array_string_len text.old + 8 ≤ N }
    ensures text { text.new.bytes ≡ text.old.bytes ++ (codes "BYTE " ++ hex_byte byte) }
    ensures size { array_string_len text.new ≡ array_string_len text.old + 8 }
{
    text.push_str("BYTE ");
    push_byte(text, byte);
}

/// Appends the text of a valid instruction that is at an address.
#[tactic(auto, using(std::proofs::Common::append_assoc), unfolding(gpl_listing_defs::specs::Texts::instr_text))]
pub(crate) fn push_instr<const N: usize>(text: &mut ArrayString<N>, instr: &GplInstr, at: u16)
    requires valid { IsTrue (is_valid instr.now) }
    requires room { array_string_len text.old + 52 ≤ N }
    ensures text { text.new.bytes ≡ text.old.bytes ++ spec.instr_text instr.now at }
    ensures size { array_string_len text.new ≤ array_string_len text.old + 52 }
{
    match instr {
        GplInstr::Plain(op) => text.push_str(name_of(GplOperation::Plain(*op))),
        GplInstr::Byte { op, value } => {
            push_name(text, GplOperation::Byte(*op));
            push_byte(text, *value);
        }
        GplInstr::Jump { op, to } => {
            push_name(text, GplOperation::Jump(*op));
            push_word(text, *to);
        }
        GplInstr::Branch { on, offset } => {
            push_name(text, GplOperation::Branch(*on));
            push_word(text, at / GROM_SIZE * GROM_SIZE + *offset);
        }
        GplInstr::One {
            op,
            word,
            at: operand,
        } => {
            push_worded(text, *word, GplOperation::One(*op));
            push_operand(text, *operand);
        }
        GplInstr::Two { op, word, dst, src } => {
            push_worded(text, *word, GplOperation::Two(*op));
            push_operand(text, *dst);
            text.push_str(",");
            push_source(text, *word, src);
        }
        GplInstr::Move {
            length,
            target,
            source,
        } => push_move(text, length, target, source),
    }
}

/// Appends a MOVE.
#[tactic(auto, using(std::proofs::Common::append_assoc))]
fn push_move<const N: usize>(
    text: &mut ArrayString<N>,
    length: &MoveLength,
    target: &MoveTarget,
    source: &MoveSource,
)
    requires { array_string_len text.old + 52 ≤ N }
    ensures text { text.new.bytes ≡ text.old.bytes ++ (codes "MOVE "
        ++ two_texts (spec.length_text length.now)
        (two_texts (spec.target_text target.now) (spec.from_text source.now))) }
    ensures size { array_string_len text.new ≤ array_string_len text.old + 52 }
{
    text.push_str("MOVE ");
    push_length(text, length);
    text.push_str(",");
    push_target(text, target);
    text.push_str(",");
    push_from(text, source);
}

/// Appends the name of an operation and a blank.
#[tactic(auto, using(std::proofs::Common::append_assoc))]
fn push_name<const N: usize>(text: &mut ArrayString<N>, operation: GplOperation)
    requires { array_string_len text.old + 6 ≤ N }
    ensures name { text.new.bytes ≡ text.old.bytes ++ ((row_of operation).name ++ codes " ") }
    ensures size { array_string_len text.new ≤ array_string_len text.old + 6 }
{
    text.push_str(name_of(operation));
    text.push_str(" ");
}

/// Appends the name of an operation, after a D for the form of words, and a blank.
#[tactic(auto, using(std::proofs::Common::append_assoc))]
fn push_worded<const N: usize>(text: &mut ArrayString<N>, word: bool, operation: GplOperation)
    requires { array_string_len text.old + 7 ≤ N }
    ensures name { text.new.bytes ≡ text.old.bytes
        ++ ((if word then name_of_words (row_of operation) else (row_of operation).name) ++ codes " ") }
    ensures size { array_string_len text.new ≤ array_string_len text.old + 7 }
{
    if word {
        text.push_str("D");
    }
    push_name(text, operation);
}
