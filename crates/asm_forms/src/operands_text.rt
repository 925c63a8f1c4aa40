//! The operands of an instruction, as text.

ghost use Rattle.std.specs.Prelude.{◌≡◌, ◌<◌, ◌≤◌, ◌+◌, ◌++◌, length, slice_index, Some};
ghost use Rattle.arrayvec.specs.ArrayString.{array_string_len};
ghost use Rattle.tms_defs.specs.Instructions.{IsPlace, HasRoom};
ghost use Rattle.instruction_defs.specs.Operands.{following_words};
ghost use Rattle.instruction_defs.specs.Printed as spec;

use crate::sizes::{following_words, has_immediate, has_value};
use crate::text::{Text, push_decimal, push_register, push_signed};
use asm_text::push_word;
use tms_defs::{Instr, JumpOp, Place, RegOp};

/// Appends the operands of an instruction after a blank, where it has any.
#[tactic(auto, using(std::proofs::Common::append_assoc))]
pub(crate) fn push_operands(text: &mut Text, instr: &Instr, at: u16, words: &[u16])
    requires room { array_string_len text.old ≤ 4 }
    requires instr { HasRoom instr.now }
    ensures { text.new.bytes ≡ spec.with_operands text.old.bytes (spec.operands_text instr.now at words.now) }
{
    match *instr {
        Instr::Two { dst, src, .. } => push_two(text, src, dst, words),
        Instr::Reg { op, d, src } => {
            text.push(' ');
            push_operand(text, src, word_at(words, 1));
            text.push(',');
            push_number(text, op, d);
        }
        Instr::Shift { count, w, .. } => {
            text.push(' ');
            push_register(text, w);
            text.push(',');
            push_decimal(text, count);
        }
        Instr::One { at: place, .. } => {
            text.push(' ');
            push_operand(text, place, word_at(words, 1));
        }
        Instr::Jump { op, disp } => {
            text.push(' ');
            push_target(text, op, at.wrapping_add(2), disp);
        }
        Instr::Imm { op, w } => {
            text.push(' ');
            push_register(text, w);
            if has_immediate(op) {
                text.push(',');
                push_word(text, word_at(words, 1));
            }
        }
        Instr::Bare { op } => {
            if has_value(op) {
                text.push(' ');
                push_word(text, word_at(words, 1));
            }
        }
    }
}

/// Appends a source and a destination after a blank.
#[tactic(auto, using(std::proofs::Common::append_assoc))]
fn push_two(text: &mut Text, src: Place, dst: Place, words: &[u16])
    requires room { array_string_len text.old ≤ 4 }
    requires src { IsPlace src }
    requires dst { IsPlace dst }
    ensures { text.new.bytes ≡ spec.with_operands text.old.bytes
        (Some (spec.two_texts (spec.operand_text src (slice_index words.now 1))
        (spec.operand_text dst (slice_index words.now (1 + following_words src))))) }
{
    text.push(' ');
    push_operand(text, src, word_at(words, 1));
    text.push(',');
    push_operand(text, dst, word_at(words, 1 + following_words(src)));
}

/// The word with a number, or 0 after the last.
fn word_at(words: &[u16], number: u8) -> u16
    ensures { result ≡ slice_index words.now number }
{
    words.get(usize::from(number)).copied().unwrap_or(0)
}

/// Appends an operand whose address, where it has one, is a word.
#[tactic(auto, using(std::proofs::Common::append_assoc), unfolding(instruction_defs::specs::Printed::operand_text))]
fn push_operand(text: &mut Text, place: Place, word: u16)
    requires room { array_string_len text.old + 16 ≤ 64 }
    requires place { IsPlace place }
    ensures text { text.new.bytes ≡ text.old.bytes ++ spec.operand_text place word }
    ensures size { array_string_len text.new ≤ array_string_len text.old + 16 }
{
    match place.mode {
        0 => push_register(text, place.reg),
        1 => {
            text.push('*');
            push_register(text, place.reg);
        }
        2 => push_symbolic(text, word, place.reg),
        _ => {
            text.push('*');
            push_register(text, place.reg);
            text.push('+');
        }
    }
}

/// Appends an address, with its index register where it has one.
#[tactic(auto, using(std::proofs::Common::append_assoc))]
fn push_symbolic(text: &mut Text, address: u16, register: u8)
    requires { array_string_len text.old + 16 ≤ 64 }
    ensures text { text.new.bytes ≡ text.old.bytes ++ spec.symbolic_text address register }
    ensures size { array_string_len text.new ≤ array_string_len text.old + 16 }
{
    text.push('@');
    push_word(text, address);
    if register != 0 {
        text.push('(');
        push_register(text, register);
        text.push(')');
    }
}

/// Appends the second operand of an operation on a register.
fn push_number(text: &mut Text, op: RegOp, number: u8)
    requires { array_string_len text.old + 6 ≤ 64 }
    ensures { text.new.bytes ≡ text.old.bytes ++ spec.number_text op number }
{
    match op {
        RegOp::XOP | RegOp::LDCR | RegOp::STCR => push_decimal(text, number),
        RegOp::COC | RegOp::CZC | RegOp::XOR | RegOp::MPY | RegOp::DIV => push_register(
            text, number,
        ),
    }
}

/// Appends the target of a jump, or the displacement of a bit.
fn push_target(text: &mut Text, op: JumpOp, next: u16, disp: i8)
    requires { array_string_len text.old + 6 ≤ 64 }
    ensures { text.new.bytes ≡ text.old.bytes ++ spec.target_text op next disp }
{
    match op {
        JumpOp::SBO | JumpOp::SBZ | JumpOp::TB => push_signed(text, disp),
        _ => push_word(text, next.wrapping_add_signed(2 * i16::from(disp))),
    }
}
